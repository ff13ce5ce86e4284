// Where the words of a block stand, its size, and that of a column. Written by tools/records.py.
pub const PRESENT: usize = 0;

pub const CURRENT_CTXT: usize = 1;

pub const SCHED_CTXT: usize = 2;

pub const IDLE_CTXT: usize = 3;

pub const SCHEDULE_TIME: usize = 4;

pub const PIT_TICKS: usize = 5;

pub const BEING_SIGKILLED: usize = 6;

pub const INSIDE_SYSCALL: usize = 7;

pub const STEALABLE: usize = 8;

pub const QUEUE_LEN: usize = 9;

pub const PUBLISHED_WEIGHT: usize = 10;

pub const STEAL_COUNTER: usize = 11;

pub const STATE: usize = 12;

pub const USER: usize = 13;

pub const KERNEL: usize = 14;

pub const IDLE: usize = 15;

pub const CONTEXT_SWITCHES: usize = 16;

pub const SYSCALL_SWITCHES: usize = 17;

pub const QUEUE_LOCKED: usize = 18;

pub const V: usize = 19;

pub const TOTAL_WEIGHT: usize = 20;

pub const QUEUE_COUNT: usize = 21;

pub const TIMERS_COUNT: usize = 22;

pub const LOCAL_COUNT: usize = 23;

pub const IPI_COUNT: usize = 24;

pub const SCALARS_SIZE: usize = 21;

pub const FRONT_SIZE: usize = 25;

pub const KEY_VD: usize = 25;

pub const KEY_REM_SLICE: usize = 89;

pub const KEY_CTXT_ID: usize = 153;

pub const ENTRY_VTIME: usize = 217;

pub const ENTRY_WEIGHT: usize = 281;

pub const ENTRY_CONTEXT_REF: usize = 345;

pub const TIMER_WAKE: usize = 409;

pub const TIMER_CONTEXT_REF: usize = 473;

pub const LOCAL_WAKEUP_LIST: usize = 537;

pub const IPI_CONTEXT_WAKEUP_LIST: usize = 601;

pub const COLUMNS_END: usize = 665;

pub const REMAINDER: usize = 665;

pub const BLOCK_SIZE: usize = 666;

pub const ROOM: usize = 64;
