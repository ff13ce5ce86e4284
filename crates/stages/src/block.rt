// The same on one CPU's block.
ghost use Rattle.std.specs.Prelude.{◌≡◌, Bool, true, false, List, [], ◌∷◌, ◌++◌, ℕ, ◌<◌, ◌≤◌, leb, length, get_or, is_err};
ghost use Rattle.entries.specs.Order.{entry_before};
ghost use Rattle.entries.specs.Queue.{queue_insert, queue_remove};
ghost use Rattle.entries.specs.Sorted.{Sorted};
ghost use Rattle.percpu.specs.Cpu.{Cpu};
ghost use Rattle.percpu.specs.With.{cpu_block, cpu_queue, cpu_queue_len, cpu_remainder};
ghost use Rattle.percpu.specs.Layout.{cpu_words};
ghost use Rattle.run_queue.specs.Put.{no_room};
ghost use Rattle.percpu.specs.Places.{queue_count, block_size};
ghost use Rattle.percpu.specs.Lists.{cpu_push_local};

use entries::{Entry, Key};
use percpu::{PercpuBlock, places};
use table::NoRoom;
use wakeup_lists::WakeupList;

pub fn load(b: &[u64]) -> PercpuBlock
    requires { length b.now ≡ block_size }
    ensures { (p : Cpu) → b.now ≡ cpu_words p → result ≡ p.block }
{
    percpu::load_block(&b[0..places::SCALARS_SIZE])
}

pub fn store(b: &mut [u64], v: PercpuBlock)
    requires { length b.old ≡ block_size }
    ensures { (p : Cpu) → b.old ≡ cpu_words p → b.new ≡ cpu_words (cpu_block v p) }
{
    percpu::store_block(&mut b[0..places::SCALARS_SIZE], v);
}

pub fn store_remainder(b: &mut [u64], x: u64)
    requires { length b.old ≡ block_size }
    ensures { (p : Cpu) → b.old ≡ cpu_words p → b.new ≡ cpu_words (cpu_remainder x p) }
{
    b[places::REMAINDER] = x;
}

// The queue's length is published.
pub fn insert_entry(b: &mut [u64], e: Entry) -> Result<(), NoRoom>
    requires { (length b.old ≡ block_size) × (get_or b.old queue_count 0 ≤ 64) }
    ensures { (p : Cpu) → b.old ≡ cpu_words p → length p.queue ≤ 64 → Sorted entry_before p.queue → (is_err result ≡ no_room e p) × (is_err result ≡ false → b.new ≡ cpu_words (cpu_queue_len (length (queue_insert e p.queue)) (cpu_queue (queue_insert e p.queue) p))) }
{
    run_queue::insert(b, e)?;
    b[places::QUEUE_LEN] = b[places::QUEUE_COUNT];
    Ok(())
}

pub fn remove_key(b: &mut [u64], k: Key)
    requires { (length b.old ≡ block_size) × (get_or b.old queue_count 0 ≤ 64) }
    ensures { (p : Cpu) → b.old ≡ cpu_words p → length p.queue ≤ 64 → Sorted entry_before p.queue → b.new ≡ cpu_words (cpu_queue_len (length (queue_remove k p.queue)) (cpu_queue (queue_remove k p.queue) p)) }
{
    run_queue::remove(b, k);
    b[places::QUEUE_LEN] = b[places::QUEUE_COUNT];
}

pub fn push_local(b: &mut [u64], x: u64) -> Result<(), NoRoom>
    requires { length b.old ≡ block_size }
    ensures { (p : Cpu) → b.old ≡ cpu_words p → (is_err result ≡ leb 64 (length p.local_wakeup_list)) × (is_err result ≡ false → b.new ≡ cpu_words (cpu_push_local x p)) }
{
    if 64 <= b[places::LOCAL_COUNT] {
        return Err(NoRoom);
    }
    wakeup_lists::push(b, WakeupList::Local, x);
    Ok(())
}
