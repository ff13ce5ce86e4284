// What is looked at leaves: due timers whose context can be read or is gone, and the local list.
ghost use Rattle.std.specs.Prelude.{◌≡◌, ◌<◌, ◌≤◌};
ghost use Rattle.columns.specs.Common.{keep};
ghost use Rattle.numbers.specs.Limits.{max_number};
ghost use Rattle.model.specs.Wakeup.{stays};
ghost use Rattle.plain_model.specs.Wakeup.{drained};
ghost use Rattle.plain_lists.specs.Lists.{entries_of, Stands};
ghost use Rattle.plain_state.specs.States.{state_in, Sound, Became};
ghost use Rattle.plain_state.specs.Fits.{StateFits};
ghost use Rattle.plain_wakeup.specs.Wakeups.{entry_stays};

use crate::judge;
use entries::Timer;
use plain_lists::Queue;
use plain_state::State;

// A timer stays until it is due and its context can be read or is gone.
fn stays(s: State, n: usize, time: u64, t: Timer) -> bool
    requires { (Sound n s) × (t.context_ref < n) × (time ≤ max_number) }
    ensures { result ≡ stays time (state_in n s) t }
{
    let x = numbers::index(t.context_ref);
    let c = s.context(n, x);
    let due = t.wake <= time + 1;
    !due || judge::is_unreadable(s.cpu.block.sched_ctxt, t, c)
}

// The timers that stay.
fn staying(s: State, n: usize, time: u64) -> Queue
    requires { (Sound n s) × (StateFits n (state_in n s)) × (time ≤ max_number) }
    ensures { Stands result (keep (entry_stays time (state_in n s)) (entries_of s.cpu.timers)) }
{
    let timers = s.cpu.timers;
    let mut out = timers.cleared();
    for e in timers.as_slice_sized() {
        out = out.push_if_sized(stays(s, n, time, plain_state::timer_of(*e)), *e);
    }
    out
}

pub fn drained(mut s: State, n: usize, time: u64) -> State
    requires { (Sound n s) × (StateFits n (state_in n s)) × (time ≤ max_number) }
    ensures { Became n result (drained time (state_in n s)) }
{
    s.cpu.timers = staying(s, n, time);
    s.cpu.local = s.cpu.local.cleared();
    s
}
