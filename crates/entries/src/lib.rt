// What a CPU's run queue holds (context/mod.rs): `ContextQueueKey`, an entry of the queue, and a timer.
#![tactic(auto)]

ghost use Rattle.std.specs.Prelude.{◌≡◌};
ghost use Rattle.entries.specs.Order.{before, sooner, superseded, timer_key};

#[derive(Clone, Copy)]
pub struct Key {
    pub vd: u64,
    pub rem_slice: u64,
    pub ctxt_id: u64,
}

#[derive(Clone, Copy)]
pub struct Entry {
    pub key: Key,
    pub vtime: u64,
    pub weight: u64,
    pub context_ref: u64,
}

#[derive(Clone, Copy, PartialEq, Eq, PartialOrd, Ord)]
pub struct Timer {
    pub wake: u64,
    pub context_ref: u64,
}

impl Key {
    // By vd, then the larger rem_slice first, then by id.
    pub fn before(self, other: Key) -> bool
        ensures { result ≡ before self other }
    {
        (self.vd, other.rem_slice, self.ctxt_id) < (other.vd, self.rem_slice, other.ctxt_id)
    }
}

// A timer as a key: with the wake twice, only the context decides between equal wakes.
impl From<Timer> for Key {
    ghost from_gives = { λ t k. k ≡ timer_key t };

    fn from(t: Timer) -> Key {
        Key {
            vd: t.wake,
            rem_slice: t.wake,
            ctxt_id: t.context_ref,
        }
    }
}

impl Timer {
    // By wake, then by context. No code calls it: timers are looked up as keys. Kept for the edits that turn it (a).
    pub fn sooner(self, other: Timer) -> bool
        ensures { result ≡ sooner self other }
    {
        self < other
    }

    // The other one is of the same context and has another wake.
    pub fn supersedes(self, other: Timer) -> bool
        ensures { result ≡ superseded self other }
    {
        other.context_ref == self.context_ref && other.wake != self.wake
    }
}
