// The turn that ends, of the plain engine and by value: the decision is counted, wake-ups are served, the time is kept and the holder pays.
#![tactic(auto)]

mod holder;
mod timing;

ghost use Rattle.std.specs.Prelude.{◌≡◌, false, ◌≤◌};
ghost use Rattle.numbers.specs.Limits.{max_number};
ghost use Rattle.plain_model.specs.Turn.{before_selection};
ghost use Rattle.plain_state.specs.States.{state_in, Sound, Tracks};
ghost use Rattle.plain_turn.specs.Turns.{CanBegin, Timed, TurnEnds};

use plain_state::State;
use ticks::Spent;

// The state in which the choice is made, the turn as it was charged, and whether the CPU was idle.
#[derive(Clone, Copy)]
pub struct Turned {
    pub state: State,
    pub spent: Spent,
    pub was_idle: bool,
}

// The decision counted, wake-ups served, times kept.
fn before_selection(s: State, n: usize, time: u64) -> State
    requires sound { (Sound n s) × (s.no_room ≡ false) × (time ≤ max_number) }
    requires can_begin { CanBegin n time (state_in n s) }
    ensures tracks { Tracks n result (before_selection time (state_in n s)) }
    ensures timed { result.no_room ≡ false → Timed n (state_in n result) }
{
    let woken = plain_wakeup::serve_wakeups(timing::count_switch(s, n), n, time);
    timing::times(woken, n, time)
}

pub fn before_choice(s: State, n: usize, time: u64) -> Turned
    requires sound { (Sound n s) × (s.no_room ≡ false) × (time ≤ max_number) }
    requires can_begin { CanBegin n time (state_in n s) }
    ensures { TurnEnds n time (state_in n s) result }
{
    let block = s.cpu.block;
    let elapsed = time.saturating_sub(block.schedule_time);
    let spent = timing::turn_spent(elapsed, s.cpu.remainder);
    let timed = before_selection(s, n, time);
    Turned {
        state: holder::charge_holder(timed, n, spent),
        spent,
        was_idle: timing::is_idle(block.stats.state),
    }
}
