// A runnable holder that lost goes back to the queue.
ghost use Rattle.std.specs.Prelude.{◌≡◌, Bool, false, ℕ, ◌<◌, ◌≤◌, is_err};
ghost use Rattle.weights.specs.Weights.{weight};
ghost use Rattle.machine.specs.Shape.{ContextFits, EntryFits, Image};
ghost use Rattle.model.specs.State.{State};
ghost use Rattle.stages.specs.Stage.{Staged};
ghost use Rattle.handover.specs.Handed.{taken_out_by, requeued_by};
ghost use Rattle.context.specs.Key.{with_new_key, entry_of};
ghost use Rattle.model.specs.Handover.{requeue};

use context::Context;
use entries::Entry;
use machine::CpuPlace;
use stages::NoRoom;

fn entry_of(x: usize, q: Context) -> Entry
    requires { q.prio < 40 }
    ensures { result ≡ entry_of x (weight q.prio) q }
{
    let weight = weights::weight_of(q.prio);
    let name = numbers::word(x);
    q.entry(name, weight)
}

fn take_out(m: &mut [u64], cpu: CpuPlace, q: Context)
    requires image { Image cpu.c cpu.n m.old }
    ensures { Staged cpu.c cpu.n cpu.k m.old m.new false (λ (s : State). taken_out_by q s) }
{
    if q.has_queue_key {
        stages::remove_key(m, cpu, q.queue_key());
    }
}

// There may be no room in the queue.
fn requeue_context(m: &mut [u64], cpu: CpuPlace, x: usize, q: Context) -> Result<(), NoRoom>
    requires image { Image cpu.c cpu.n m.old }
    requires bounded { x < cpu.n }
    requires context_fits { ContextFits cpu.c q }
    ensures { Staged cpu.c cpu.n cpu.k m.old m.new (is_err result) (λ (s : State). requeued_by x q s) }
{
    take_out(m, cpu, q);
    let after = q.with_new_key();
    stages::store_context(m, cpu, x, after);
    let e = entry_of(x, q);
    stages::insert_entry(m, cpu, e)
}

// There may be no room in the queue.
pub fn requeue(m: &mut [u64], cpu: CpuPlace) -> Result<(), NoRoom>
    requires image { Image cpu.c cpu.n m.old }
    ensures { Staged cpu.c cpu.n cpu.k m.old m.new (is_err result) (λ (s : State). requeue s) }
{
    let b = stages::load_block(m, cpu);
    let x = numbers::index(b.sched_ctxt);
    let q = machine::load(m, cpu.c, cpu.n, x);
    requeue_context(m, cpu, x, q)
}
