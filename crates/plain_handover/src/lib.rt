// The end of a decision of the plain engine, by value: V advances, a runnable holder that lost goes back to the queue, the slice changes hands.
#![tactic(auto)]

mod advancing;
mod handing;
mod requeuing;

ghost use Rattle.std.specs.Prelude.{◌≡◌, ◌≤◌, None};
ghost use Rattle.model.specs.Handover.{next_context};
ghost use Rattle.plain_model.specs.State.{placed};
ghost use Rattle.plain_model.specs.Handover.{settled};
ghost use Rattle.plain_state.specs.States.{state_in, Sound, Tracks};
ghost use Rattle.plain_state.specs.Fits.{StateFits};
ghost use Rattle.stages.specs.Stage.{StateBelow};
ghost use Rattle.stages.specs.Bounds.{t_timed, b_stolen, max_gain};
ghost use Rattle.plain_handover.specs.Settled.{HolderFits, stealing_of, sent_back};

pub use advancing::with_block;
pub use handing::hand_over;
use plain_state::State;

// A runnable holder that lost goes back to the queue.
fn send_back(s: State, n: usize, won: bool, runs: bool) -> State
    requires { (Sound n s) × (HolderFits n (state_in n s)) }
    ensures { Tracks n result (sent_back won runs (state_in n s)) }
{
    if won && runs {
        requeuing::requeue(s, n)
    } else {
        s
    }
}

// After the stealing. `runs`: the holder is runnable; `winner`: who won, if anybody.
pub fn settle(s: State, n: usize, runs: bool, winner: Option<usize>, elapsed_ticks: u64) -> State
    requires sound { (Sound n s) × (StateFits n (state_in n s)) × (elapsed_ticks ≤ max_gain) }
    requires state_below { StateBelow n t_timed b_stolen (placed (state_in n s)) }
    ensures { Tracks n result (settled runs elapsed_ticks (stealing_of (state_in n s) winner)) }
{
    let won = winner.is_some();
    let t = advancing::advance(s, n, elapsed_ticks, won || runs);
    advancing::mark_stealable(send_back(t, n, won, runs), n)
}

// Nobody won: a runnable holder keeps the slice, and so does the idle context.
#[tactic(auto, unfolding(model::specs::Handover::next_context))]
fn without_winner(s: State, n: usize, runs: bool) -> Option<usize>
    ensures { result ≡ next_context runs None (state_in n s) }
{
    let b = s.cpu.block;
    if runs || b.sched_ctxt == b.idle_ctxt {
        None
    } else {
        Some(numbers::index(b.idle_ctxt))
    }
}

// Who gets the slice. Nobody as an answer: the holder keeps it.
#[tactic(auto, unfolding(model::specs::Handover::next_context))]
pub fn next_context(s: State, n: usize, runs: bool, winner: Option<usize>) -> Option<usize>
    ensures { result ≡ next_context runs winner (state_in n s) }
{
    match winner {
        Some(x) => Some(x),
        None => without_winner(s, n, runs),
    }
}
