// A woken context enters the queue.
ghost use Rattle.std.specs.Prelude.{false, ◌<◌, is_err};
ghost use Rattle.weights.specs.Weights.{weight};
ghost use Rattle.entries.specs.Queue.{queue_remove};
ghost use Rattle.percpu.specs.Cpu.{Cpu};
ghost use Rattle.percpu.specs.With.{cpu_queue};
ghost use Rattle.machine.specs.Shape.{ContextFits, Image};
ghost use Rattle.model.specs.State.{State, on_cpu, put_context, insert_entry};
ghost use Rattle.model.specs.Wakeup.{activated, without_old_key, enter};
ghost use Rattle.stages.specs.Stage.{Staged};
ghost use Rattle.wakeup.specs.Paced.{Paced, RecordFits};
ghost use Rattle.numbers.specs.Limits.{max_number};
ghost use Rattle.stages.specs.Bounds.{b_waking};
ghost use Rattle.context.specs.Key.{entry_of};

use context::Context;
use entries::Key;
use machine::CpuPlace;
use percpu::places::BLOCK_SIZE;
use stages::NoRoom;

// A context that was not active counts in the total weight from now on.
fn activate(m: &mut [u64], cpu: CpuPlace, q: Context)
    requires image { Image cpu.c cpu.n m.old }
    requires bounded { RecordFits cpu.c q }
    requires paced { Paced cpu.c cpu.n cpu.k max_number b_waking m.old }
    ensures { Staged cpu.c cpu.n cpu.k m.old m.new false (λ (s : State). on_cpu (λ (p : Cpu). activated q p) s) }
{
    let b = stages::load_block(m, cpu);
    let a = wakeup_judge::activate_block(b, q);
    stages::store_block(m, cpu, a);
}

// A key out of the queue, whose published length stays.
fn take_out(m: &mut [u64], cpu: CpuPlace, key: Key)
    requires image { Image cpu.c cpu.n m.old }
    ensures { Staged cpu.c cpu.n cpu.k m.old m.new false (λ (s : State). on_cpu (λ (p : Cpu). cpu_queue (queue_remove key p.queue) p) s) }
{
    let at = cpu.start();
    let end = at + BLOCK_SIZE;
    run_queue::remove(&mut m[at..end], key);
}

fn remove_old_key(m: &mut [u64], cpu: CpuPlace, q: Context)
    requires image { Image cpu.c cpu.n m.old }
    ensures { Staged cpu.c cpu.n cpu.k m.old m.new false (λ (s : State). on_cpu (λ (p : Cpu). cpu_queue (without_old_key q p.queue) p) s) }
{
    if q.has_queue_key {
        take_out(m, cpu, q.queue_key());
    }
}

// The record e stored, and its entry inserted.
fn join(m: &mut [u64], cpu: CpuPlace, x: usize, e: Context) -> Result<(), NoRoom>
    requires image { Image cpu.c cpu.n m.old }
    requires bounded { x < cpu.n }
    requires context_fits { ContextFits cpu.c e }
    ensures { Staged cpu.c cpu.n cpu.k m.old m.new (is_err result) (λ (s : State). insert_entry (entry_of x (weight e.prio) e) (put_context x e s)) }
{
    stages::store_context(m, cpu, x, e);
    let weight = weights::weight_of(e.prio);
    let name = numbers::word(x);
    let entry = e.entry(name, weight);
    stages::insert_entry(m, cpu, entry)
}

// The context x with the record q enters.
pub fn enter_queue(m: &mut [u64], cpu: CpuPlace, x: usize, q: Context) -> Result<(), NoRoom>
    requires image { Image cpu.c cpu.n m.old }
    requires bounded { (x < cpu.n) × RecordFits cpu.c q }
    requires paced { Paced cpu.c cpu.n cpu.k max_number b_waking m.old }
    ensures { Staged cpu.c cpu.n cpu.k m.old m.new (is_err result) (λ (s : State). enter x q s) }
{
    let b = stages::load_block(m, cpu);
    let e = wakeup_judge::enter_record(b.v, q);
    activate(m, cpu, q);
    remove_old_key(m, cpu, q);
    join(m, cpu, x, e)
}
