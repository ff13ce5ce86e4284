// A context's record: what the scheduler reads and writes of it (context/context.rs), field by field a word of the image, flags too.
#![tactic(auto)]

mod key;
pub mod places;
mod record;

ghost use Rattle.std.specs.Prelude.{◌≡◌, false};
ghost use Rattle.context.specs.Block.{changed, blocked_as, unblocked, without_wake};
ghost use Rattle.context.specs.Status.{is_runnable, is_soft_blocked};

pub use record::{load_context, store_context};

#[derive(Clone, Copy, PartialEq, Eq)]
pub enum Status {
    Runnable,
    Blocked,
    Stopped,
    AwaitingMmap,
    NotYetStarted,
    Dead,
}

#[derive(Clone, Copy)]
pub struct Context {
    pub gone: bool,
    pub debug_id: u64,
    pub status: Status,
    pub running: bool,
    pub currently_scheduled: bool,
    // 0 for none, else the CPU's number + 1
    pub cpu_id: u64,
    pub schedule_time: u64,
    pub switch_time: u64,
    pub active_cpu_time: u64,
    pub sched_cpu_time: u64,
    pub sched_affinity: u64,
    pub inside_syscall: bool,
    pub has_wake: bool,
    pub wake: u64,
    pub userspace: bool,
    pub being_sigkilled: bool,
    pub prio: u64,
    pub vtime: u64,
    pub vd: u64,
    pub rem_slice: u64,
    pub is_active: bool,
    pub has_queue_key: bool,
    pub queue_key_vd: u64,
    pub queue_key_rem_slice: u64,
    // 0 free, 1 read, 2 written by another CPU
    pub lock: u64,
    // 0 none, 1 free, 2 written by another CPU
    pub addr_space: u64,
}

impl Status {
    pub fn is_runnable(self) -> bool
        ensures { result ≡ is_runnable self }
    {
        self == Status::Runnable
    }

    pub fn is_soft_blocked(self) -> bool
        ensures { result ≡ is_soft_blocked self }
    {
        self == Status::Blocked
    }
}

impl Context {
    // A runnable context gets the status: Blocked, or Stopped, the one reason of `hard_block` that document 01 takes. True if it did.
    pub fn blocked_as(&mut self, status: Status) -> bool
        ensures { changed self.new result ≡ blocked_as status self.old }
    {
        let runs = self.status.is_runnable();
        if runs {
            self.status = status;
        }
        runs
    }

    // Its wake stays. True if it was soft-blocked.
    pub fn unblock_no_ipi(&mut self) -> bool
        ensures { changed self.new result ≡ unblocked self.old }
    {
        let blocked = self.status.is_soft_blocked();
        if blocked {
            self.status = Status::Runnable;
        }
        blocked
    }

    // At its wake, of which nothing is left.
    pub fn wake_up(&mut self) -> bool
        ensures { changed self.new result ≡ unblocked (without_wake self.old) }
    {
        self.has_wake = false;
        self.wake = 0;
        self.unblock_no_ipi()
    }
}
