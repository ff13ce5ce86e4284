// The clean-up after the scan, V stored with it, and the winner's key out of the queue.
ghost use Rattle.std.specs.Prelude.{◌≡◌, false, ◌<◌};
ghost use Rattle.machine.specs.Shape.{Image};
ghost use Rattle.model.specs.State.{State};
ghost use Rattle.model.specs.Choice.{dequeued, taken_out};
ghost use Rattle.stages.specs.Stage.{Staged};
ghost use Rattle.select_judge.specs.Values.{WinnerBelow};
ghost use Rattle.select.specs.Cleaning.{lightened, remove_keys, cleaned};

use entries::Key;
use machine::CpuPlace;
use percpu::PercpuBlock;

// The block with less weight, the queue's length published, and V.
fn lightened(mut b: PercpuBlock, change: u64, len: usize, v: u64) -> PercpuBlock
    ensures { result ≡ lightened b change len v }
{
    let left = b.total_weight.saturating_sub(change);
    let length = numbers::word(len);
    b.total_weight = left;
    b.published_weight = left;
    b.queue_len = length;
    b.v = v;
    b
}

// The keys leave the queue of the CPU.
fn remove_keys(m: &mut [u64], keys: &[Key], cpu: CpuPlace)
    requires image { Image cpu.c cpu.n m.old }
    ensures { Staged cpu.c cpu.n cpu.k m.old m.new false (λ (s : State). remove_keys keys.now s) }
{
    for key in keys {
        stages::remove_key(m, cpu, *key);
    }
}

// The weight and the keys that the scan gave up leave, and V becomes v.
pub fn clean_up(m: &mut [u64], keys: &[Key], cpu: CpuPlace, weight_change: u64, v: u64)
    requires image { Image cpu.c cpu.n m.old }
    ensures { Staged cpu.c cpu.n cpu.k m.old m.new false (λ (s : State). cleaned weight_change keys.now v s) }
{
    let old = stages::load_block(m, cpu);
    let len = stages::queue_len(m, cpu);
    let b = lightened(old, weight_change, len, v);
    stages::store_block(m, cpu, b);
    remove_keys(m, keys, cpu);
}

// The key of context x leaves the queue of the CPU, and its record.
fn dequeue(m: &mut [u64], cpu: CpuPlace, x: usize)
    requires image { Image cpu.c cpu.n m.old }
    requires bounded { x < cpu.n }
    ensures { Staged cpu.c cpu.n cpu.k m.old m.new false (λ (s : State). dequeued x s) }
{
    let q = machine::load(m, cpu.c, cpu.n, x);
    if q.has_queue_key {
        let unqueued = q.without_key();
        stages::store_context(m, cpu, x, unqueued);
        stages::remove_key(m, cpu, q.queue_key());
    }
}

// The winner's key leaves the queue of the CPU.
pub fn take_out(m: &mut [u64], cpu: CpuPlace, w: Option<usize>)
    requires image { Image cpu.c cpu.n m.old }
    requires bounded { WinnerBelow cpu.n w }
    ensures { Staged cpu.c cpu.n cpu.k m.old m.new false (λ (s : State). taken_out w s) }
{
    if let Some(x) = w {
        dequeue(m, cpu, x);
    }
}
