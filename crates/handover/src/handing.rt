// The slice goes from the holder to another context.
ghost use Rattle.std.specs.Prelude.{◌≡◌, Bool, false, ℕ, ◌<◌, ◌≤◌};
ghost use Rattle.machine.specs.Shape.{ContextFits, Image};
ghost use Rattle.model.specs.State.{State};
ghost use Rattle.stages.specs.Stage.{Staged, Ranged};
ghost use Rattle.stages.specs.Read.{BlockFits};
ghost use Rattle.handover.specs.Handed.{given_up, taken, taken_over, handed_by};
ghost use Rattle.numbers.specs.Limits.{max_number};
ghost use Rattle.stages.specs.Bounds.{t_timed, b_advanced};
ghost use Rattle.model.specs.Handover.{hand_over};

use context::Context;
use machine::CpuPlace;
use percpu::PercpuBlock;

fn give_up(mut q: Context, time: u64, was_idle: bool) -> Context
    requires { (q.sched_cpu_time ≤ t_timed) × (time ≤ max_number) }
    ensures { result ≡ given_up time was_idle q }
{
    q.currently_scheduled = false;
    if was_idle {
        return q;
    }
    let elapsed = time.saturating_sub(q.schedule_time);
    q.sched_cpu_time = q.sched_cpu_time + elapsed;
    q
}

fn take(mut q: Context, time: u64) -> Context
    ensures { result ≡ taken time q }
{
    q.currently_scheduled = true;
    q.schedule_time = time;
    q
}

fn take_over(m: &mut [u64], cpu: CpuPlace, time: u64, x: usize, mut b: PercpuBlock)
    requires image { Image cpu.c cpu.n m.old }
    requires bounded { x < cpu.n }
    requires block_fits { BlockFits cpu.n b }
    ensures { Staged cpu.c cpu.n cpu.k m.old m.new false (λ (s : State). taken_over time x b s) }
{
    let q = machine::load(m, cpu.c, cpu.n, x);
    let after = take(q, time);
    stages::store_context(m, cpu, x, after);
    b.sched_ctxt = numbers::word(x);
    stages::store_block(m, cpu, b);
}

// From y, whose record is q, to x.
fn hand_from(
    m: &mut [u64],
    cpu: CpuPlace,
    time: u64,
    was_idle: bool,
    x: usize,
    y: usize,
    b: PercpuBlock,
    q: Context,
)
    requires image { Image cpu.c cpu.n m.old }
    requires bounded { (x < cpu.n) × (y < cpu.n) }
    requires block_fits { BlockFits cpu.n b }
    requires context_fits { ContextFits cpu.c q }
    requires sched_cpu_time_bound { (q.sched_cpu_time ≤ t_timed) × (time ≤ max_number) }
    ensures { Staged cpu.c cpu.n cpu.k m.old m.new false (λ (s : State). handed_by time was_idle x y b q s) }
{
    let after = give_up(q, time, was_idle);
    stages::store_context(m, cpu, y, after);
    take_over(m, cpu, time, x, b);
}

// `was_idle`: the CPU's state was Idle before the decision.
pub fn hand_over(m: &mut [u64], cpu: CpuPlace, time: u64, was_idle: bool, x: usize)
    requires image { Image cpu.c cpu.n m.old }
    requires bounded { (x < cpu.n) × (time ≤ max_number) }
    requires ranged { Ranged cpu.c cpu.n t_timed b_advanced m.old }
    ensures { Staged cpu.c cpu.n cpu.k m.old m.new false (λ (s : State). hand_over time was_idle x s) }
{
    let b = stages::load_block(m, cpu);
    let y = numbers::index(b.sched_ctxt);
    let q = machine::load(m, cpu.c, cpu.n, y);
    hand_from(m, cpu, time, was_idle, x, y, b, q);
}
