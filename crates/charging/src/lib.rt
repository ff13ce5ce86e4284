// What the holder of the CPU pays for its turn (`select_next_context`, context/switch.rs).
#![tactic(auto)]

ghost use Rattle.std.specs.Prelude.{◌≡◌, ℕ, ◌*◌, ◌<◌, ◌≤◌};
ghost use Rattle.charging.specs.Charge.{charged, stopped, renewed, Chargeable};
ghost use Rattle.numbers.specs.Limits.{number_range};

use context::Context;
use ticks::Spent;

// a shorter turn is a yield
const YIELD_BOUND: u64 = ticks::TICK_INTERVAL * ticks::NANOS_PER_TICK / 2;

// A slice used up is filled, and the deadline is a whole slice after the vtime.
fn renew(mut c: Context) -> Context
    requires { (c.prio < 40) × (c.vtime < (3 * number_range)) }
    ensures { result ≡ renewed c }
{
    if c.rem_slice == 0 {
        c.vd = c.vtime + weights::slice_of(c.prio);
        c.rem_slice = weights::FULL_SLICE;
    }
    c
}

// A runnable holder: a turn under half of a switch's interval is a yield, which costs what is left of the slice.
pub fn charge_runnable(mut c: Context, v: u64, spent: Spent) -> Context
    requires { Chargeable v spent c }
    ensures { result ≡ charged v spent c }
{
    let weight = weights::weight_of(c.prio);
    let rem_slice = c.rem_slice.saturating_sub(spent.ticks);
    let vtime = (c.vtime + spent.ticks / weight).max(v);
    if spent.elapsed < YIELD_BOUND {
        c.vtime = vtime + rem_slice / weight;
        c.rem_slice = 0;
        return renew(c);
    }
    c.vtime = vtime;
    c.rem_slice = rem_slice;
    renew(c)
}

// A holder that is not runnable any more.
pub fn charge_stopped(mut c: Context) -> Context
    ensures { result ≡ stopped c }
{
    c.rem_slice = 0;
    c.is_active = false;
    c
}
