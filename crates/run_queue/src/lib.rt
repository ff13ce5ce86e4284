// The run queue in a CPU's block: six columns, sorted by key (`RunContextData` of context/mod.rs, a `BTreeMap` there).
#![tactic(auto)]

ghost use Rattle.std.specs.Prelude.{◌≡◌, ℕ, ◌<◌, ◌≤◌, length, get_or, is_err};
ghost use Rattle.entries.specs.Order.{entry_before};
ghost use Rattle.entries.specs.Queue.{queue_remove};
ghost use Rattle.entries.specs.Found.{has_key};
ghost use Rattle.entries.specs.Sorted.{Sorted};
ghost use Rattle.percpu.specs.Cpu.{Cpu};
ghost use Rattle.percpu.specs.With.{cpu_queue};
ghost use Rattle.percpu.specs.Layout.{cpu_words, entry_at};
ghost use Rattle.run_queue.specs.Put.{no_room, queue_put};
ghost use Rattle.percpu.specs.Places.{queue_count, block_size};

use entries::{Entry, Key};
use percpu::places::{ENTRY_CONTEXT_REF, ENTRY_VTIME, ENTRY_WEIGHT};
use table::{NoRoom, QUEUE};

pub fn entry(b: &[u64], i: usize) -> Entry
    requires { (length b.now ≡ block_size) × (i < 64) }
    ensures { result ≡ entry_at b.now i }
{
    Entry {
        key: QUEUE.keys.key(b, i),
        vtime: b[ENTRY_VTIME + i],
        weight: b[ENTRY_WEIGHT + i],
        context_ref: b[ENTRY_CONTEXT_REF + i],
    }
}

// An entry of the same key is replaced.
pub fn insert(b: &mut [u64], e: Entry) -> Result<(), NoRoom>
    requires { (length b.old ≡ block_size) × (get_or b.old queue_count 0 ≤ 64) }
    ensures { (c : Cpu) → b.old ≡ cpu_words c → length c.queue ≤ 64 → Sorted entry_before c.queue → (is_err result ≡ no_room e c) × (b.new ≡ cpu_words (queue_put e c)) }
{
    let k = e.key;
    let values = [
        k.vd,
        k.rem_slice,
        k.ctxt_id,
        e.vtime,
        e.weight,
        e.context_ref,
    ];
    QUEUE.insert(b, k, &values)
}

// True if there was an entry of the key; the words that it frees are 0.
pub fn remove(b: &mut [u64], k: Key) -> bool
    requires { (length b.old ≡ block_size) × (get_or b.old queue_count 0 ≤ 64) }
    ensures { (c : Cpu) → b.old ≡ cpu_words c → length c.queue ≤ 64 → Sorted entry_before c.queue → (result ≡ has_key k c.queue) × (b.new ≡ cpu_words (cpu_queue (queue_remove k c.queue) c)) }
{
    QUEUE.remove(b, k)
}
