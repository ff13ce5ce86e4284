// `switch_inner`: a direct switch back, or a decision and its switch.
ghost use Rattle.std.specs.Prelude.{◌≡◌, false, ◌<◌, ◌≤◌};
ghost use Rattle.numbers.specs.Limits.{max_number};
ghost use Rattle.answer.specs.declared.SwitchResult.TheVariants.{Switched};
ghost use Rattle.answer.specs.Number.{result_number};
ghost use Rattle.model.specs.Schedule.{after_schedule};
ghost use Rattle.stages.specs.Stage.{StateBelow};
ghost use Rattle.stages.specs.Bounds.{t_handed, b_advanced};
ghost use Rattle.plain_model.specs.State.{placed};
ghost use Rattle.plain_model.specs.Schedule.{schedule, switch_inner};
ghost use Rattle.plain_state.specs.States.{state_in, Sound, Became, Tracks};
ghost use Rattle.plain_state.specs.Fits.{StateFits};
ghost use Rattle.plain_turn.specs.Turns.{CanBegin};
ghost use Rattle.plain_steal.specs.Stealing.{cpus_in, CpusSound};
ghost use Rattle.plain_schedule.specs.Next.{NextFits, next_in};
ghost use Rattle.plain_decide.specs.Decided.{DecidedTracks, CpusHere, marked_idle, switched_to};

use answer::SwitchResult;
use cpu_stats::CpuState;
use plain_schedule::Next;
use plain_state::State;
use plain_steal::{Caller, Cpus};

// The state, every CPU (this one as it was), the number of what the switch came to and that of its rule, 0 where nothing was decided.
// Where an insertion found no room, these say nothing.
// Numbers and no enums, as in the definitions' outcome.
#[derive(Clone, Copy)]
pub struct Decided {
    pub state: State,
    pub cpus: Cpus,
    pub result: u64,
    pub rule: u64,
}

// A switch without a decision.
pub fn switched(state: State, cpus: Cpus) -> Decided
    ensures { result ≡ record { state = state; cpus = cpus; result = result_number Switched; rule = 0 } }
{
    Decided {
        state,
        cpus,
        result: u64::from(SwitchResult::Switched),
        rule: 0,
    }
}

fn mark_idle(s: State, n: usize) -> State
    requires { Sound n s }
    ensures { Became n result (marked_idle (state_in n s)) }
{
    let mut b = s.cpu.block;
    b.stats.set_state(CpuState::Idle);
    plain_handover::with_block(s, n, b)
}

fn switch_unless_current(s: State, by: Caller, x: usize) -> State
    requires sound { (Sound by.n s) × (StateFits by.n (state_in by.n s)) × (x < by.n) × (by.k < 4) × (by.time ≤ max_number) }
    requires state_below { StateBelow by.n t_handed b_advanced (placed (state_in by.n s)) }
    ensures { Tracks by.n result (switched_to by.k by.time x (state_in by.n s)) }
{
    if s.cpu.block.current_ctxt == numbers::word(x) {
        s
    } else {
        plain_switch::switch_to(s, by.n, by.k, by.time, x)
    }
}

// Keeping the holder is AllContextsIdle and marks the CPU Idle, though the holder may run.
fn switch_as(next: Next, by: Caller) -> Decided
    requires sound { (Sound by.n next.state) × (CpusSound by.c next.cpus) × (by.k < 4) × (by.time ≤ max_number) }
    requires next_fits { NextFits by.n t_handed b_advanced next }
    ensures { DecidedTracks by.n by.c by.k result (after_schedule by.k by.time (next_in by.n by.c next)) }
{
    match next.context {
        None => Decided {
            state: mark_idle(next.state, by.n),
            cpus: next.cpus,
            result: u64::from(SwitchResult::AllContextsIdle),
            rule: u64::from(next.rule),
        },
        Some(x) => Decided {
            state: switch_unless_current(next.state, by, x),
            cpus: next.cpus,
            result: u64::from(SwitchResult::Switched),
            rule: u64::from(next.rule),
        },
    }
}

fn decide(s: State, by: Caller, cpus: Cpus) -> Decided
    requires sound { (Sound by.n s) × (s.no_room ≡ false) × (by.time ≤ max_number) }
    requires can_begin { (CanBegin by.n by.time (state_in by.n s)) × (CpusHere by.n by.c by.k cpus) }
    ensures { DecidedTracks by.n by.c by.k result (after_schedule by.k by.time (schedule by.k by.time (cpus_in by.c cpus) (state_in by.n s))) }
{
    let next = plain_schedule::schedule(s, by, cpus);
    if next.state.no_room {
        Decided {
            state: next.state,
            cpus: next.cpus,
            result: 0,
            rule: 0,
        }
    } else {
        switch_as(next, by)
    }
}

pub fn switch_inner(s: State, by: Caller, cpus: Cpus) -> Decided
    requires sound { (Sound by.n s) × (s.no_room ≡ false) × (by.time ≤ max_number) }
    requires can_begin { (CanBegin by.n by.time (state_in by.n s)) × (CpusHere by.n by.c by.k cpus) }
    ensures { DecidedTracks by.n by.c by.k result (switch_inner by.k by.time (cpus_in by.c cpus) (state_in by.n s)) }
{
    match plain_switch::try_direct_switch_back(s, by.n, by.k, by.time) {
        Some(state) => switched(state, cpus),
        None => decide(s, by, cpus),
    }
}
