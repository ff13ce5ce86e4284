// The two wake-up lists of a CPU's block: `local_wakeup_list` and `ipi_context_wakeup_list`.
#![tactic(auto)]

ghost use Rattle.std.specs.Prelude.{◌≡◌, [], ◌++◌, ◌+◌, ◌<◌, ◌≤◌, length, get_or};
ghost use Rattle.percpu.specs.Cpu.{Cpu};
ghost use Rattle.percpu.specs.With.{cpu_local_wakeup_list, cpu_ipi_context_wakeup_list};
ghost use Rattle.percpu.specs.Layout.{cpu_words};
ghost use Rattle.percpu.specs.Places.{local_count, ipi_count, ipi_context_wakeup_list_column, block_size};
ghost use Rattle.wakeup_lists.specs.Lists.{names_place, count_place, with_names, cpu_push};

use percpu::places::{IPI_CONTEXT_WAKEUP_LIST, IPI_COUNT, LOCAL_COUNT, LOCAL_WAKEUP_LIST};

// `Ipi` is the one that another CPU's interrupt drains.
#[derive(Clone, Copy)]
pub enum WakeupList {
    Local,
    Ipi,
}

impl WakeupList {
    // Where its 64 names begin.
    fn names(self) -> usize
        ensures { (result ≡ names_place self) × (result ≤ ipi_context_wakeup_list_column) }
    {
        match self {
            WakeupList::Local => LOCAL_WAKEUP_LIST,
            WakeupList::Ipi => IPI_CONTEXT_WAKEUP_LIST,
        }
    }

    // Where their count stands.
    pub fn count(self) -> usize
        ensures { (result ≡ count_place self) × (result ≤ ipi_count) }
    {
        match self {
            WakeupList::Local => LOCAL_COUNT,
            WakeupList::Ipi => IPI_COUNT,
        }
    }
}

// x at the end of a list, which has room.
pub fn push(b: &mut [u64], list: WakeupList, x: u64)
    requires { (length b.old ≡ block_size) × (get_or b.old (count_place list) 0 < 64) }
    ensures b_after { (c : Cpu) → b.old ≡ cpu_words c → b.new ≡ cpu_words (cpu_push list x c) }
    ensures count_after { get_or b.new (count_place list) 0 ≡ get_or b.old (count_place list) 0 + 1 }
{
    let names = list.names();
    let count = list.count();
    let n = numbers::index(b[count]);
    columns::insert_at(&mut b[names..names + 64], n, n, x);
    b[count] = numbers::word(n + 1);
}

// A list emptied; the words that it frees are 0.
pub fn clear(b: &mut [u64], list: WakeupList)
    requires { length b.old ≡ block_size }
    ensures { (c : Cpu) → b.old ≡ cpu_words c → b.new ≡ cpu_words (with_names list [] c) }
{
    let names = list.names();
    b[names..names + 64].fill(0);
    b[list.count()] = 0;
}

// The names of the interrupt list behind those of the local list, which has room for them.
fn append_ipi(b: &mut [u64])
    requires { (length b.old ≡ block_size) × (get_or b.old local_count 0 + get_or b.old ipi_count 0 ≤ 64) }
    ensures { (c : Cpu) → b.old ≡ cpu_words c → length c.ipi_context_wakeup_list ≤ 64 → b.new ≡ cpu_words (cpu_local_wakeup_list (c.local_wakeup_list ++ c.ipi_context_wakeup_list) c) }
{
    let k = numbers::index(b[IPI_COUNT]);
    for i in 0..k {
        let x = b[IPI_CONTEXT_WAKEUP_LIST + i];
        push(b, WakeupList::Local, x);
    }
}

// `drain_ipi_context_wakeups`, where the local list has room.
pub fn drain_ipi(b: &mut [u64])
    requires { (length b.old ≡ block_size) × (get_or b.old local_count 0 + get_or b.old ipi_count 0 ≤ 64) }
    ensures { (c : Cpu) → b.old ≡ cpu_words c → length c.ipi_context_wakeup_list ≤ 64 → b.new ≡ cpu_words (cpu_local_wakeup_list (c.local_wakeup_list ++ c.ipi_context_wakeup_list) (cpu_ipi_context_wakeup_list [] c)) }
{
    append_ipi(b);
    clear(b, WakeupList::Ipi);
}
