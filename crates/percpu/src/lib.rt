// A CPU's block without its arrays (percpu.rs and `ContextSwitchPercpu` of context/switch.rs).
#![tactic(auto)]

pub mod places;

ghost use Rattle.std.specs.Prelude.{◌≡◌, ℕ, ◌<◌, ◌≤◌, length};
ghost use Rattle.cpu_stats.specs.Words.{stats_of, stats_size};
ghost use Rattle.percpu.specs.Words.{block_words, block_of};
ghost use Rattle.percpu.specs.Places.{scalars_size};

use cpu_stats::CpuStats;

#[derive(Clone, Copy)]
pub struct PercpuBlock {
    pub present: bool,
    pub current_ctxt: u64,
    pub sched_ctxt: u64,
    pub idle_ctxt: u64,
    pub schedule_time: u64,
    pub pit_ticks: u64,
    pub being_sigkilled: bool,
    pub inside_syscall: bool,
    // what other CPUs read without the queue's lock
    pub stealable: bool,
    pub queue_len: u64,
    pub published_weight: u64,
    pub steal_counter: u64,
    pub stats: CpuStats,
    // the run queue's lock is held by another CPU
    pub queue_locked: bool,
    pub v: u64,
    pub total_weight: u64,
}

// By number: these words have places in a block, not of their own.
fn load_stats(w: &[u64]) -> CpuStats
    requires { length w.now ≡ stats_size }
    ensures { result ≡ stats_of w.now }
{
    CpuStats {
        state: w[0].into(),
        user: w[1],
        kernel: w[2],
        idle: w[3],
        context_switches: w[4],
        syscall_switches: w[5],
    }
}

pub fn load_block(w: &[u64]) -> PercpuBlock
    requires { length w.now ≡ scalars_size }
    ensures { result ≡ block_of w.now }
{
    PercpuBlock {
        present: w[places::PRESENT] == 1,
        current_ctxt: w[places::CURRENT_CTXT],
        sched_ctxt: w[places::SCHED_CTXT],
        idle_ctxt: w[places::IDLE_CTXT],
        schedule_time: w[places::SCHEDULE_TIME],
        pit_ticks: w[places::PIT_TICKS],
        being_sigkilled: w[places::BEING_SIGKILLED] == 1,
        inside_syscall: w[places::INSIDE_SYSCALL] == 1,
        stealable: w[places::STEALABLE] == 1,
        queue_len: w[places::QUEUE_LEN],
        published_weight: w[places::PUBLISHED_WEIGHT],
        steal_counter: w[places::STEAL_COUNTER],
        stats: load_stats(&w[places::STATE..places::QUEUE_LOCKED]),
        queue_locked: w[places::QUEUE_LOCKED] == 1,
        v: w[places::V],
        total_weight: w[places::TOTAL_WEIGHT],
    }
}

pub fn store_block(w: &mut [u64], c: PercpuBlock)
    requires { length w.old ≡ scalars_size }
    ensures { w.new ≡ block_words c }
{
    let s = c.stats;
    w.copy_from_slice(&[
        c.present as u64,
        c.current_ctxt,
        c.sched_ctxt,
        c.idle_ctxt,
        c.schedule_time,
        c.pit_ticks,
        c.being_sigkilled as u64,
        c.inside_syscall as u64,
        c.stealable as u64,
        c.queue_len,
        c.published_weight,
        c.steal_counter,
        s.state.into(),
        s.user,
        s.kernel,
        s.idle,
        s.context_switches,
        s.syscall_switches,
        c.queue_locked as u64,
        c.v,
        c.total_weight,
    ]);
}
