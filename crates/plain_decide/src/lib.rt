// The calls that decide, of the plain engine and by value: `tick`, `switch` and `direct_switch_to`.
// In every function s is the state of the CPU that calls.
#![tactic(auto)]

mod switching;

ghost use Rattle.std.specs.Prelude.{◌<◌};
ghost use Rattle.model.specs.Schedule.{ticked};
ghost use Rattle.plain_model.specs.Schedule.{switch_inner};
ghost use Rattle.plain_state.specs.States.{state_in, Became};
ghost use Rattle.plain_steal.specs.Stealing.{cpus_in};
ghost use Rattle.plain_decide.specs.Decided.{DecidedTracks, CpusHere, CanDecide, tick_of, direct_switch_of};

use plain_state::State;
use plain_steal::{Caller, Cpus};
pub use switching::Decided;

// The tick is counted.
fn count_tick(s: State, n: usize, time: u64) -> State
    requires { CanDecide n time s }
    ensures { Became n result (ticked (state_in n s)) }
{
    let mut b = s.cpu.block;
    b.pit_ticks += 1;
    plain_handover::with_block(s, n, b)
}

// A switch is due once its interval is over.
pub fn tick(s: State, by: Caller, cpus: Cpus) -> Decided
    requires { (CanDecide by.n by.time s) × (CpusHere by.n by.c by.k cpus) }
    ensures { DecidedTracks by.n by.c by.k result (tick_of by.k by.time (cpus_in by.c cpus) (state_in by.n s)) }
{
    let counted = count_tick(s, by.n, by.time);
    if counted.cpu.block.pit_ticks < ticks::TICK_INTERVAL {
        Decided {
            state: counted,
            cpus,
            result: 0,
            rule: 0,
        }
    } else {
        switching::switch_inner(counted, by, cpus)
    }
}

pub fn switch(s: State, by: Caller, cpus: Cpus) -> Decided
    requires { (CanDecide by.n by.time s) × (CpusHere by.n by.c by.k cpus) }
    ensures { DecidedTracks by.n by.c by.k result (switch_inner by.k by.time (cpus_in by.c cpus) (state_in by.n s)) }
{
    switching::switch_inner(s, by, cpus)
}

// Where x cannot be switched to, the CPU switches as it would by itself.
pub fn direct_switch_to(s: State, by: Caller, x: usize, cpus: Cpus) -> Decided
    requires { (CanDecide by.n by.time s) × (CpusHere by.n by.c by.k cpus) × (x < by.n) }
    ensures { DecidedTracks by.n by.c by.k result (direct_switch_of by.k by.time x (cpus_in by.c cpus) (state_in by.n s)) }
{
    let name = numbers::word(x);
    let b = s.cpu.block;
    if b.current_ctxt == name {
        return switching::switched(s, cpus);
    }
    let own = b.sched_ctxt == name;
    match plain_switch::direct_switch_by(s, by.n, by.k, by.time, x, own) {
        Some(state) => switching::switched(state, cpus),
        None => switching::switch_inner(s, by, cpus),
    }
}
