// What the holder pays for its turn.
ghost use Rattle.std.specs.Prelude.{◌≡◌, Bool, false, ℕ, ◌<◌, ◌≤◌, is_err};
ghost use Rattle.charging.specs.Charge.{Chargeable};
ghost use Rattle.machine.specs.Shape.{ContextFits, Image};
ghost use Rattle.model.specs.State.{State};
ghost use Rattle.model.specs.Turn.{charge_holder};
ghost use Rattle.stages.specs.Stage.{Staged, Ranged};
ghost use Rattle.stages.specs.Read.{BlockFits};
ghost use Rattle.turn.specs.Charged.{weight_left, left, stopped_by, charged_by};
ghost use Rattle.ticks.specs.Ticks.{max_ticks};
ghost use Rattle.stages.specs.Bounds.{t_timed, b_woken};

use context::Context;
use entries::Timer;
use machine::CpuPlace;
use percpu::PercpuBlock;
use stages::NoRoom;
use ticks::Spent;

// The total weight without a context that stops.
fn leave_weight(mut b: PercpuBlock, q: Context) -> PercpuBlock
    requires { q.prio < 40 }
    ensures { result ≡ weight_left b q }
{
    if q.is_active {
        let weight = weights::weight_of(q.prio);
        b.total_weight = b.total_weight.saturating_sub(weight);
    }
    b
}

fn deactivate(m: &mut [u64], cpu: CpuPlace, x: usize, b: PercpuBlock, q: Context)
    requires image { Image cpu.c cpu.n m.old }
    requires bounded { x < cpu.n }
    requires block_fits { BlockFits cpu.n b }
    requires context_fits { ContextFits cpu.c q }
    ensures { Staged cpu.c cpu.n cpu.k m.old m.new false (λ (s : State). left x b q s) }
{
    let after = leave_weight(b, q);
    stages::store_block(m, cpu, after);
    let stopped = charging::charge_stopped(q);
    stages::store_context(m, cpu, x, stopped);
}

// The wake of a holder that stops becomes a timer.
fn stop_holder(
    m: &mut [u64],
    cpu: CpuPlace,
    x: usize,
    b: PercpuBlock,
    q: Context,
) -> Result<(), NoRoom>
    requires image { Image cpu.c cpu.n m.old }
    requires bounded { x < cpu.n }
    requires block_fits { BlockFits cpu.n b }
    requires context_fits { ContextFits cpu.c q }
    ensures { Staged cpu.c cpu.n cpu.k m.old m.new (is_err result) (λ (s : State). stopped_by x b q s) }
{
    deactivate(m, cpu, x, b, q);
    if q.has_wake {
        let t = Timer {
            wake: q.wake,
            context_ref: numbers::word(x),
        };
        return stages::insert_newest_timer(m, cpu, t);
    }
    Ok(())
}

fn charge_context(
    m: &mut [u64],
    cpu: CpuPlace,
    spent: Spent,
    x: usize,
    b: PercpuBlock,
    q: Context,
) -> Result<(), NoRoom>
    requires image { Image cpu.c cpu.n m.old }
    requires bounded { x < cpu.n }
    requires block_fits { BlockFits cpu.n b }
    requires context_fits { ContextFits cpu.c q }
    requires chargeable { Chargeable b.v spent q }
    ensures { Staged cpu.c cpu.n cpu.k m.old m.new (is_err result) (λ (s : State). charged_by spent x b q s) }
{
    if q.status.is_runnable() {
        let charged = charging::charge_runnable(q, b.v, spent);
        stages::store_context(m, cpu, x, charged);
        return Ok(());
    }
    stop_holder(m, cpu, x, b, q)
}

// There may be no room for the timer of a holder that stopped.
pub fn charge_holder(m: &mut [u64], cpu: CpuPlace, spent: Spent) -> Result<(), NoRoom>
    requires image { Image cpu.c cpu.n m.old }
    requires bounded { spent.ticks ≤ max_ticks }
    requires ranged { Ranged cpu.c cpu.n t_timed b_woken m.old }
    ensures { Staged cpu.c cpu.n cpu.k m.old m.new (is_err result) (λ (s : State). charge_holder spent s) }
{
    let b = stages::load_block(m, cpu);
    if b.sched_ctxt == b.idle_ctxt {
        return Ok(());
    }
    let x = numbers::index(b.sched_ctxt);
    let q = machine::load(m, cpu.c, cpu.n, x);
    charge_context(m, cpu, spent, x, b, q)
}
