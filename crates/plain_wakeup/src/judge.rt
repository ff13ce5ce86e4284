// A timer and a wake-up judged by value: of the CPU's names and of the context's record.
// Its own code and not wakeup_judge's: the plain engine shares no function of a stage with the fast one.
ghost use Rattle.std.specs.Prelude.{◌≡◌, ◌<◌};
ghost use Rattle.numbers.specs.Limits.{half_range};
ghost use Rattle.model.specs.Wakeup.{waits_for, woken_by, entering};
ghost use Rattle.wakeup_judge.specs.Judge.{live_at, unreadable_at, may_enter_at, activated_block, Enterable};
ghost use Rattle.plain_wakeup.specs.Wakeups.{wake_of};

use context::Context;
use entries::Timer;
use percpu::PercpuBlock;

// A context to be woken; `wake` is that of the timer that gave it, if a timer did.
#[derive(Clone, Copy)]
pub struct Wakeup {
    pub wake: Option<u64>,
    pub context_ref: u64,
}

// Soft-blocked until that wake.
fn waits_for(c: Context, wake: u64) -> bool
    ensures { result ≡ waits_for wake c }
{
    c.status.is_soft_blocked() && c.has_wake && c.wake == wake
}

// A due timer gives a wake-up if its context can be read and still waits for that wake.
pub fn is_live(sched: u64, t: Timer, c: Context) -> bool
    ensures { result ≡ live_at sched t c }
{
    !c.gone && c.lock != 2 && t.context_ref != sched && waits_for(c, t.wake)
}

// A live context that cannot be read: its due timer stays.
pub fn is_unreadable(sched: u64, t: Timer, c: Context) -> bool
    ensures { result ≡ unreadable_at sched t c }
{
    !c.gone && (c.lock == 2 || t.context_ref == sched)
}

// The record as the wake-up leaves it.
pub fn woken_by(w: Wakeup, mut c: Context) -> Context
    ensures { result ≡ woken_by (wake_of w) c }
{
    match w.wake {
        Some(wake) if waits_for(c, wake) => {
            c.wake_up();
            c
        }
        _ => c,
    }
}

// Only runnable user contexts enter, and of the running ones only the one that this CPU switched to directly.
pub fn may_enter(current: u64, sched: u64, x: u64, c: Context) -> bool
    ensures { result ≡ may_enter_at current sched x c }
{
    c.status.is_runnable()
        && !c.currently_scheduled
        && c.userspace
        && (!c.running || x == current && x != sched)
}

// The record that enters: not behind V, with a full slice and a deadline a whole slice on.
pub fn enter_record(v: u64, mut c: Context) -> Context
    requires { Enterable v c }
    ensures { result ≡ entering v c }
{
    let vtime = c.vtime.max(v);
    let vd = vtime + weights::slice_of(c.prio);
    c.vtime = vtime;
    c.vd = vd;
    c.rem_slice = weights::FULL_SLICE;
    c.is_active = true;
    c.with_new_key()
}

// One that was not active counts in the total weight from now on.
pub fn activate_block(mut b: PercpuBlock, c: Context) -> PercpuBlock
    requires { (c.prio < 40) × (b.total_weight < half_range) }
    ensures { result ≡ activated_block c b }
{
    if !c.is_active {
        b.total_weight += weights::weight_of(c.prio);
        b.published_weight = b.total_weight;
    }
    b
}
