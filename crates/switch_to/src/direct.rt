// A switch without a decision: to a context that a call names, or back to the one in charge. Each says whether it was made.
ghost use Rattle.std.specs.Prelude.{◌≡◌, Bool, true, false, ℕ, ◌<◌, ◌≤◌, is_some, is_err};
ghost use Rattle.runnable.specs.Runnable.{update_runnable};
ghost use Rattle.machine.specs.Shape.{ContextFits, Image};
ghost use Rattle.model.specs.State.{State, at, put_context};
ghost use Rattle.model.specs.SwitchTo.{switch_to, direct_switch_by, try_direct_switch_back};
ghost use Rattle.stages.specs.Stage.{Stage, ContextBelow, Ranged};
ghost use Rattle.switch_to.specs.Direct.{is_switched, or_same};
ghost use Rattle.numbers.specs.Limits.{max_number};
ghost use Rattle.stages.specs.Bounds.{t_handed, b_advanced};

use context::Context;
use machine::CpuPlace;
use runnable::UpdateResult;
use stages::NoRoom;

fn direct_switch(
    m: &mut [u64],
    cpu: CpuPlace,
    time: u64,
    x: usize,
    q: Context,
) -> Result<bool, NoRoom>
    requires image { Image cpu.c cpu.n m.old }
    requires bounded { (x < cpu.n) × (time ≤ max_number) }
    requires context_fits { ContextFits cpu.c q }
    requires context_below { ContextBelow t_handed b_advanced q }
    requires ranged { Ranged cpu.c cpu.n t_handed b_advanced m.old }
    ensures { Stage cpu.c cpu.n cpu.k m.old m.new (is_err result) (is_switched result) (λ (s : State). switch_to cpu.k time x (put_context x q s)) (λ (s : State). true) }
{
    stages::store_context(m, cpu, x, q);
    crate::switch_to(m, cpu, time, x)?;
    Ok(true)
}

// `own`: x is in charge.
pub fn direct_switch_by(
    m: &mut [u64],
    cpu: CpuPlace,
    time: u64,
    x: usize,
    own: bool,
) -> Result<bool, NoRoom>
    requires image { Image cpu.c cpu.n m.old }
    requires bounded { (x < cpu.n) × (time ≤ max_number) }
    requires ranged { Ranged cpu.c cpu.n t_handed b_advanced m.old }
    ensures { Stage cpu.c cpu.n cpu.k m.old m.new (is_err result) (is_switched result) (λ (s : State). or_same s (direct_switch_by cpu.k time x s (update_runnable cpu.k time own false (at s x)))) (λ (s : State). is_some (direct_switch_by cpu.k time x s (update_runnable cpu.k time own false (at s x)))) }
{
    let q = machine::load(m, cpu.c, cpu.n, x);
    match runnable::update_runnable(q, numbers::word(cpu.k), time, own, false) {
        UpdateResult::CanSwitch(r) => direct_switch(m, cpu, time, x, r),
        UpdateResult::Skip | UpdateResult::Blocked => Ok(false),
    }
}

pub fn try_direct_switch_back(m: &mut [u64], cpu: CpuPlace, time: u64) -> Result<bool, NoRoom>
    requires image { Image cpu.c cpu.n m.old }
    requires bounded { time ≤ max_number }
    requires ranged { Ranged cpu.c cpu.n t_handed b_advanced m.old }
    ensures { Stage cpu.c cpu.n cpu.k m.old m.new (is_err result) (is_switched result) (λ (s : State). or_same s (try_direct_switch_back cpu.k time s)) (λ (s : State). is_some (try_direct_switch_back cpu.k time s)) }
{
    let b = stages::load_block(m, cpu);
    if b.current_ctxt == b.sched_ctxt {
        return Ok(false);
    }
    let x = numbers::index(b.sched_ctxt);
    direct_switch_by(m, cpu, time, x, true)
}
