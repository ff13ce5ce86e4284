// A wake-up of a decision judged by value (`schedule`, context/switch.rs): what it comes to, and the record that enters the queue.
#![tactic(auto)]

ghost use Rattle.std.specs.Prelude.{◌≡◌, false, ◌≢◌, ◌<◌};
ghost use Rattle.model.specs.Wakeup.{waits_for, woken_by, entering};
ghost use Rattle.wakeup_judge.specs.Judge.{live_at, unreadable_at, may_enter_at, judged, activated_block, Enterable};
ghost use Rattle.numbers.specs.Limits.{half_range};

use context::Context;
use entries::Timer;
use percpu::PercpuBlock;

// A context to be woken; `wake` is that of the timer that gave it, if a timer did.
#[derive(Clone, Copy)]
pub struct Wakeup {
    pub wake: Option<u64>,
    pub context_ref: u64,
}

// what a wake-up comes to, with the record that is stored
#[derive(Clone, Copy)]
pub enum WakeupResult {
    Dropped,
    Locked,
    WokenOnly(Context),
    Entered(Context),
}

// Soft-blocked until that wake.
pub fn waits_for(c: Context, wake: u64) -> bool
    ensures { result ≡ waits_for wake c }
{
    c.status.is_soft_blocked() && c.has_wake && c.wake == wake
}

// A due timer gives a wake-up: c, the record of its context, which is alive, can be read and still waits for that wake.
pub fn is_live(sched: u64, t: Timer, c: Context) -> bool
    requires { c.gone ≡ false }
    ensures { result ≡ live_at sched t c }
{
    c.lock != 2 && t.context_ref != sched && waits_for(c, t.wake)
}

// A due timer stays: c, the record of its context, which is alive, cannot be read.
pub fn is_unreadable(sched: u64, t: Timer, c: Context) -> bool
    requires { c.gone ≡ false }
    ensures { result ≡ unreadable_at sched t c }
{
    c.lock == 2 || t.context_ref == sched
}

fn woken_by(w: Wakeup, mut c: Context) -> Context
    ensures { result ≡ woken_by w.wake c }
{
    match w.wake {
        Some(wake) if waits_for(c, wake) => {
            c.wake_up();
            c
        }
        _ => c,
    }
}

// `current` and `sched` are the block's `current_ctxt` and `sched_ctxt`.
fn may_enter(current: u64, sched: u64, x: u64, c: Context) -> bool
    ensures { result ≡ may_enter_at current sched x c }
{
    c.status.is_runnable()
        && !c.currently_scheduled
        && c.userspace
        && (!c.running || x == current && x != sched)
}

// c is the record of the context, which is alive and not in charge, as it was before.
pub fn judge(current: u64, sched: u64, w: Wakeup, c: Context) -> WakeupResult
    requires { (c.gone ≡ false) × (w.context_ref ≢ sched) }
    ensures { result ≡ judged current sched w c }
{
    if c.lock != 0 {
        return WakeupResult::Locked;
    }
    let q = woken_by(w, c);
    if may_enter(current, sched, w.context_ref, q) {
        return WakeupResult::Entered(q);
    }
    WakeupResult::WokenOnly(q)
}

// The record that enters: not behind V, with a full slice and a deadline a whole slice on.
pub fn enter_record(v: u64, mut c: Context) -> Context
    requires { Enterable v c }
    ensures { result ≡ entering v c }
{
    c.vtime = c.vtime.max(v);
    c.vd = c.vtime + weights::slice_of(c.prio);
    c.rem_slice = weights::FULL_SLICE;
    c.is_active = true;
    c.with_new_key()
}

// The block's scalars where c enters: one that was not active counts in the total weight from now on.
pub fn activate_block(mut b: PercpuBlock, c: Context) -> PercpuBlock
    requires { (c.prio < 40) × (b.total_weight < half_range) }
    ensures { result ≡ activated_block c b }
{
    if !c.is_active {
        b.total_weight += weights::weight_of(c.prio);
        b.published_weight = b.total_weight;
    }
    b
}
