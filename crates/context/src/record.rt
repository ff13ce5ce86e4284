// The words of a context's record.
ghost use Rattle.std.specs.Prelude.{◌≡◌, ℕ, ◌<◌, ◌≤◌, length};
ghost use Rattle.context.specs.Status.{status_number, status_of};
ghost use Rattle.context.specs.Words.{context_words, context_of, record_size};

use crate::{Context, Status, places};

impl From<Status> for u64 {
    ghost from_gives = { λ s x. x ≡ status_number s };

    fn from(s: Status) -> u64 {
        s as u64
    }
}

// Only 0 to 5 are in range.
impl From<u64> for Status {
    ghost from_gives = { λ x s. s ≡ status_of x };

    fn from(x: u64) -> Status {
        match x {
            0 => Status::Runnable,
            1 => Status::Blocked,
            2 => Status::Stopped,
            3 => Status::AwaitingMmap,
            4 => Status::NotYetStarted,
            _ => Status::Dead,
        }
    }
}

pub fn load_context(w: &[u64]) -> Context
    requires { length w.now ≡ record_size }
    ensures { result ≡ context_of w.now }
{
    Context {
        gone: w[places::GONE] == 1,
        debug_id: w[places::DEBUG_ID],
        status: w[places::STATUS].into(),
        running: w[places::RUNNING] == 1,
        currently_scheduled: w[places::CURRENTLY_SCHEDULED] == 1,
        cpu_id: w[places::CPU_ID],
        schedule_time: w[places::SCHEDULE_TIME],
        switch_time: w[places::SWITCH_TIME],
        active_cpu_time: w[places::ACTIVE_CPU_TIME],
        sched_cpu_time: w[places::SCHED_CPU_TIME],
        sched_affinity: w[places::SCHED_AFFINITY],
        inside_syscall: w[places::INSIDE_SYSCALL] == 1,
        has_wake: w[places::HAS_WAKE] == 1,
        wake: w[places::WAKE],
        userspace: w[places::USERSPACE] == 1,
        being_sigkilled: w[places::BEING_SIGKILLED] == 1,
        prio: w[places::PRIO],
        vtime: w[places::VTIME],
        vd: w[places::VD],
        rem_slice: w[places::REM_SLICE],
        is_active: w[places::IS_ACTIVE] == 1,
        has_queue_key: w[places::HAS_QUEUE_KEY] == 1,
        queue_key_vd: w[places::QUEUE_KEY_VD],
        queue_key_rem_slice: w[places::QUEUE_KEY_REM_SLICE],
        lock: w[places::LOCK],
        addr_space: w[places::ADDR_SPACE],
    }
}

pub fn store_context(w: &mut [u64], c: Context)
    requires { length w.old ≡ record_size }
    ensures { w.new ≡ context_words c }
{
    w.copy_from_slice(&[
        c.gone as u64,
        c.debug_id,
        c.status.into(),
        c.running as u64,
        c.currently_scheduled as u64,
        c.cpu_id,
        c.schedule_time,
        c.switch_time,
        c.active_cpu_time,
        c.sched_cpu_time,
        c.sched_affinity,
        c.inside_syscall as u64,
        c.has_wake as u64,
        c.wake,
        c.userspace as u64,
        c.being_sigkilled as u64,
        c.prio,
        c.vtime,
        c.vd,
        c.rem_slice,
        c.is_active as u64,
        c.has_queue_key as u64,
        c.queue_key_vd,
        c.queue_key_rem_slice,
        c.lock,
        c.addr_space,
    ]);
}
