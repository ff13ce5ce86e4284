// A decision of the plain engine, by value: the turn, the choice, the stealing and the hand-over.
#![tactic(auto)]

ghost use Rattle.std.specs.Prelude.{◌≡◌, false, ◌<◌, ◌≤◌};
ghost use Rattle.numbers.specs.Limits.{max_number};
ghost use Rattle.ticks.specs.Ticks.{max_ticks};
ghost use Rattle.model.specs.State.{prev_runnable};
ghost use Rattle.model.specs.Schedule.{picked_as};
ghost use Rattle.plain_model.specs.Choice.{rule_after};
ghost use Rattle.plain_model.specs.Schedule.{selected, schedule};
ghost use Rattle.stages.specs.Bounds.{t_timed, t_handed, b_stolen, b_advanced};
ghost use Rattle.plain_state.specs.States.{state_in, Sound};
ghost use Rattle.plain_turn.specs.Turns.{CanBegin};
ghost use Rattle.plain_steal.specs.Stealing.{cpus_in, CpusSound};
ghost use Rattle.plain_schedule.specs.Next.{CpusReady, CanChoose, NextTracks, NextFits, stolen, of_selected};

use answer::Rule;
use plain_candidates::Locked;
use plain_state::State;
use plain_steal::{Caller, Cpus, Theft};
use ticks::Spent;

// The state, every CPU (this one as it was), who won or gets the slice (nobody: the holder keeps it), and by which rule.
#[derive(Clone, Copy)]
pub struct Next {
    pub state: State,
    pub cpus: Cpus,
    pub context: Option<usize>,
    pub rule: Rule,
}

// An idle holder never counts as runnable.
fn prev_runnable(s: State, n: usize) -> bool
    requires { (Sound n s) × (s.cpu.block.sched_ctxt < n) }
    ensures { result ≡ prev_runnable (state_in n s) }
{
    let b = s.cpu.block;
    let q = s.context(n, numbers::index(b.sched_ctxt));
    b.sched_ctxt != b.idle_ctxt && q.status.is_runnable()
}

// Where nobody waited, the one who won was stolen.
fn rule_after(stole: bool, rule: Rule) -> Rule
    ensures { result ≡ rule_after stole rule }
{
    if stole && rule == Rule::Idle {
        Rule::Stolen
    } else {
        rule
    }
}

// The holder stays locked, and so does the best late entry's context.
fn choose_and_steal(s: State, by: Caller, runs: bool, cpus: Cpus) -> Next
    requires can_choose { CanChoose by.n by.c by.k s cpus }
    requires runs_value { runs ≡ prev_runnable (state_in by.n s) }
    ensures next_tracks { NextTracks by.n by.c result (stolen by.k by.time (cpus_in by.c cpus) (state_in by.n s)) }
    ensures next_fits { result.state.no_room ≡ false → NextFits by.n t_timed b_stolen result }
{
    let selected = plain_select::select(s, by.n, by.k, by.time);
    let choice = selected.choice;
    let locked = Locked {
        sched_ctxt: numbers::index(s.cpu.block.sched_ctxt),
        best: choice.locked,
    };
    let theft = Theft { runs, locked };
    let moved = plain_steal::steal(selected.state, by, theft, cpus, choice.winner);
    Next {
        state: moved.state,
        cpus: moved.cpus,
        context: moved.winner,
        rule: rule_after(moved.winner.is_some(), choice.rule),
    }
}

// After the holder is charged.
fn selected(s: State, by: Caller, spent: Spent, cpus: Cpus) -> Next
    requires can_choose { CanChoose by.n by.c by.k s cpus }
    requires ticks_le_max_ticks { spent.ticks ≤ max_ticks }
    ensures next_tracks { NextTracks by.n by.c result (of_selected (selected by.k by.time spent (cpus_in by.c cpus) (state_in by.n s))) }
    ensures next_fits { result.state.no_room ≡ false → NextFits by.n t_timed b_advanced result }
{
    let runs = prev_runnable(s, by.n);
    let moved = choose_and_steal(s, by, runs, cpus);
    if moved.state.no_room {
        return moved;
    }
    let state = plain_handover::settle(moved.state, by.n, runs, moved.context, spent.ticks);
    Next {
        state,
        cpus: moved.cpus,
        context: plain_handover::next_context(state, by.n, runs, moved.context),
        rule: moved.rule,
    }
}

// `was_idle`: the CPU's state was Idle before the decision.
fn hand_over(next: Next, by: Caller, was_idle: bool) -> Next
    requires sound { (Sound by.n next.state) × (CpusSound by.c next.cpus) × (by.time ≤ max_number) }
    requires next_fits { NextFits by.n t_timed b_advanced next }
    ensures next_tracks { NextTracks by.n by.c result (picked_as by.time was_idle next.rule (cpus_in by.c next.cpus) next.context (state_in by.n next.state)) }
    ensures next_fits_2 { NextFits by.n t_handed b_advanced result }
{
    match next.context {
        None => next,
        Some(x) => Next {
            state: plain_handover::hand_over(next.state, by.n, by.time, was_idle, x),
            cpus: next.cpus,
            context: Some(x),
            rule: next.rule,
        },
    }
}

// Where an insertion found no room, who is named says nothing.
pub fn schedule(s: State, by: Caller, cpus: Cpus) -> Next
    requires sound { (Sound by.n s) × (s.no_room ≡ false) × (by.time ≤ max_number) }
    requires can_begin { CanBegin by.n by.time (state_in by.n s) }
    requires cpus_sound { (CpusSound by.c cpus) × (CpusReady by.n (cpus_in by.c cpus)) × (by.k < by.c) }
    ensures next_tracks { NextTracks by.n by.c result (schedule by.k by.time (cpus_in by.c cpus) (state_in by.n s)) }
    ensures next_fits { result.state.no_room ≡ false → NextFits by.n t_handed b_advanced result }
{
    let turned = plain_turn::before_choice(s, by.n, by.time);
    if turned.state.no_room {
        return Next {
            state: turned.state,
            cpus,
            context: None,
            rule: Rule::Idle,
        };
    }
    let next = selected(turned.state, by, turned.spent, cpus);
    if next.state.no_room {
        return next;
    }
    hand_over(next, by, turned.was_idle)
}
