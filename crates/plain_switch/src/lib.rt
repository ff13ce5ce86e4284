// `switch_to` of the plain engine, by value: the current context leaves the CPU and another comes.
// In every function k is the CPU.
#![tactic(auto)]

mod direct;
mod records;

ghost use Rattle.std.specs.Prelude.{◌<◌, ◌≤◌};
ghost use Rattle.numbers.specs.Limits.{max_number};
ghost use Rattle.model.specs.SwitchTo.{saved, switch_to};
ghost use Rattle.plain_model.specs.State.{placed};
ghost use Rattle.plain_state.specs.States.{state_in, Sound, Became, Tracks};
ghost use Rattle.plain_state.specs.Fits.{StateFits};
ghost use Rattle.stages.specs.Stage.{StateBelow};
ghost use Rattle.stages.specs.Bounds.{t_handed, b_advanced};
ghost use Rattle.plain_switch.specs.Switched.{Leaves, left_at, entered};

pub use direct::{direct_switch_by, try_direct_switch_back};
use plain_state::State;

// A context that no list would have goes on the local list.
fn save(s: State, n: usize, k: usize, time: u64) -> State
    requires { (Sound n s) × (Leaves n (state_in n s)) }
    ensures { Tracks n result (saved k time (state_in n s)) }
{
    let b = s.cpu.block;
    let y = numbers::index(b.current_ctxt);
    if records::would_be_lost(b, s.context(n, y)) {
        s.push_local(n, b.current_ctxt)
    } else {
        s
    }
}

fn leave(s: State, n: usize, k: usize, time: u64) -> State
    requires { (Sound n s) × (Leaves n (state_in n s)) × (time ≤ max_number) }
    ensures { Became n result (left_at k time (state_in n s)) }
{
    let b = s.cpu.block;
    let y = numbers::index(b.current_ctxt);
    s.put_context(n, y, records::leave(s.context(n, y), b, time))
}

fn enter(s: State, n: usize, k: usize, time: u64, x: usize) -> State
    requires { (Sound n s) × (x < n) × (k < 4) }
    ensures { Became n result (entered k time x (state_in n s)) }
{
    let q = records::come(s.context(n, x), k, time);
    let block = records::become_current(s.cpu.block, x, q);
    plain_handover::with_block(s.put_context(n, x, q), n, block)
}

pub fn switch_to(s: State, n: usize, k: usize, time: u64, x: usize) -> State
    requires sound { (Sound n s) × (StateFits n (state_in n s)) × (x < n) × (k < 4) × (time ≤ max_number) }
    requires state_below { StateBelow n t_handed b_advanced (placed (state_in n s)) }
    ensures { Tracks n result (switch_to k time x (state_in n s)) }
{
    let t = save(s, n, k, time);
    if t.no_room {
        return t;
    }
    enter(leave(t, n, k, time), n, k, time, x)
}
