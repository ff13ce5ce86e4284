// A switch without a decision: to a context that a call names, or back to the one in charge.
ghost use Rattle.std.specs.Prelude.{false, ◌<◌, ◌≤◌};
ghost use Rattle.numbers.specs.Limits.{max_number};
ghost use Rattle.runnable.specs.Runnable.{update_runnable};
ghost use Rattle.machine.specs.Shape.{ContextFits};
ghost use Rattle.model.specs.State.{at, put_context};
ghost use Rattle.model.specs.SwitchTo.{switch_to, direct_switch_by, try_direct_switch_back};
ghost use Rattle.plain_model.specs.State.{placed};
ghost use Rattle.plain_state.specs.States.{state_in, Sound, Tracks};
ghost use Rattle.plain_state.specs.Fits.{StateFits};
ghost use Rattle.stages.specs.Stage.{ContextBelow, StateBelow};
ghost use Rattle.stages.specs.Bounds.{t_handed, b_advanced};
ghost use Rattle.plain_switch.specs.Direct.{Switches};

use context::Context;
use plain_state::State;
use runnable::UpdateResult;

fn direct_switch(s: State, n: usize, k: usize, time: u64, x: usize, q: Context) -> State
    requires sound { (Sound n s) × (StateFits n (state_in n s)) × (x < n) × (k < 4) × (time ≤ max_number) }
    requires state_below { StateBelow n t_handed b_advanced (placed (state_in n s)) }
    requires context_fits { (ContextFits 4 q) × (ContextBelow t_handed b_advanced q) }
    ensures { Tracks n result (switch_to k time x (put_context x q (state_in n s))) }
{
    crate::switch_to(s.put_context(n, x, q), n, k, time, x)
}

// The state after a switch, if one was made. `own`: x is in charge.
pub fn direct_switch_by(
    s: State,
    n: usize,
    k: usize,
    time: u64,
    x: usize,
    own: bool,
) -> Option<State>
    requires sound { (Sound n s) × (StateFits n (state_in n s)) × (x < n) × (k < 4) × (time ≤ max_number) }
    requires state_below { StateBelow n t_handed b_advanced (placed (state_in n s)) }
    ensures { Switches n result (state_in n s) (direct_switch_by k time x (state_in n s) (update_runnable k time own false (at (state_in n s) x))) }
{
    let q = s.context(n, x);
    match runnable::update_runnable(q, numbers::word(k), time, own, false) {
        UpdateResult::CanSwitch(r) => Some(direct_switch(s, n, k, time, x, r)),
        UpdateResult::Skip => None,
        UpdateResult::Blocked => None,
    }
}

pub fn try_direct_switch_back(s: State, n: usize, k: usize, time: u64) -> Option<State>
    requires sound { (Sound n s) × (StateFits n (state_in n s)) × (k < 4) × (time ≤ max_number) }
    requires state_below { StateBelow n t_handed b_advanced (placed (state_in n s)) }
    ensures { Switches n result (state_in n s) (try_direct_switch_back k time (state_in n s)) }
{
    let b = s.cpu.block;
    if b.current_ctxt == b.sched_ctxt {
        return None;
    }
    let x = numbers::index(b.sched_ctxt);
    direct_switch_by(s, n, k, time, x, true)
}
