// Where the words of a record stand, and its size. Written by tools/records.py.
pub const GONE: usize = 0;

pub const DEBUG_ID: usize = 1;

pub const STATUS: usize = 2;

pub const RUNNING: usize = 3;

pub const CURRENTLY_SCHEDULED: usize = 4;

pub const CPU_ID: usize = 5;

pub const SCHEDULE_TIME: usize = 6;

pub const SWITCH_TIME: usize = 7;

pub const ACTIVE_CPU_TIME: usize = 8;

pub const SCHED_CPU_TIME: usize = 9;

pub const SCHED_AFFINITY: usize = 10;

pub const INSIDE_SYSCALL: usize = 11;

pub const HAS_WAKE: usize = 12;

pub const WAKE: usize = 13;

pub const USERSPACE: usize = 14;

pub const BEING_SIGKILLED: usize = 15;

pub const PRIO: usize = 16;

pub const VTIME: usize = 17;

pub const VD: usize = 18;

pub const REM_SLICE: usize = 19;

pub const IS_ACTIVE: usize = 20;

pub const HAS_QUEUE_KEY: usize = 21;

pub const QUEUE_KEY_VD: usize = 22;

pub const QUEUE_KEY_REM_SLICE: usize = 23;

pub const LOCK: usize = 24;

pub const ADDR_SPACE: usize = 25;

pub const RECORD_SIZE: usize = 26;
