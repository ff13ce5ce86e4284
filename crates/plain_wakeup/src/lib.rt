// The wake-ups of the plain engine, by value: each timer in its turn, then the local list.
#![tactic(auto)]

mod drain;
mod judge;
mod serve;

ghost use Rattle.std.specs.Prelude.{◌≡◌, false, ◌≤◌};
ghost use Rattle.columns.specs.Common.{fold};
ghost use Rattle.numbers.specs.Limits.{max_number};
ghost use Rattle.entries.specs.Order.{sooner};
ghost use Rattle.plain_model.specs.Rank.{by_rank};
ghost use Rattle.plain_model.specs.State.{placed};
ghost use Rattle.plain_model.specs.Wakeup.{serve_wakeups};
ghost use Rattle.stages.specs.Stage.{StateBelow};
ghost use Rattle.stages.specs.Bounds.{t_counted, b_waking};
ghost use Rattle.plain_state.specs.States.{state_in, Sound, Tracks};
ghost use Rattle.plain_state.specs.Fits.{StateFits};
ghost use Rattle.plain_wakeup.specs.Wakeups.{b_timers, timer_step, name_step, Wakeable, Served};

pub use judge::Wakeup;
use plain_state::State;

// Each timer of the state before, in its turn; s is that state drained.
fn serve_timers(before: State, s: State, n: usize, time: u64) -> State
    requires sound { (Sound n before) × (Sound n s) × (time ≤ max_number) }
    requires state_fits { (StateFits n (state_in n before)) × (s.no_room ≡ false → Wakeable n max_number (state_in n s)) }
    ensures { Served n b_timers result (fold (timer_step (state_in n before) time) (state_in n s) (by_rank sooner (state_in n before).cpu.timers)) }
{
    let turns = before.cpu.timers.by_rank();
    let mut s = s;
    for e in turns.as_slice_sized() {
        s = serve::serve_timer(before, s, n, time, plain_state::timer_of(*e));
    }
    s
}

// Each name of the local list of the state before, in the list's own order.
fn serve_names(before: State, s: State, n: usize) -> State
    requires sound { (Sound n before) × (Sound n s) }
    requires state_fits { (StateFits n (state_in n before)) × (s.no_room ≡ false → Wakeable n b_timers (state_in n s)) }
    ensures { Served n b_waking result (fold name_step (state_in n s) (state_in n before).cpu.local_wakeup_list) }
{
    let local = before.cpu.local;
    let mut s = s;
    for x in local.as_slice_sized() {
        s = serve::serve_name(s, n, *x);
    }
    s
}

// The whole stage.
pub fn serve_wakeups(s: State, n: usize, time: u64) -> State
    requires sound { (Sound n s) × (s.no_room ≡ false) × (time ≤ max_number) }
    requires state_fits { (StateFits n (state_in n s)) × (StateBelow n t_counted max_number (placed (state_in n s))) }
    ensures tracks { Tracks n result (serve_wakeups time (state_in n s)) }
    ensures state_fits_2 { result.no_room ≡ false → StateFits n (state_in n result) }
{
    let drained = drain::drained(s, n, time);
    let woken = serve_timers(s, drained, n, time);
    serve_names(s, woken, n)
}
