// Every word of the contexts' records in its range.
ghost use Rattle.std.specs.Prelude.{◌≡◌, Bool, true, false, ℕ, ◌+◌, ◌-◌, ◌*◌, ◌<◌, ◌≤◌, length};
ghost use Rattle.image_ranges.specs.Singles.{single_words};
ghost use Rattle.image_ranges.specs.Ranges.{within, context_most, wake_marked, key_marked, context_in_range, contexts_in_range};
ghost use Rattle.context.specs.Words.{record_size};
ghost use Rattle.machine.specs.Encode.{context_place};

use crate::ranges;
use context::places::{self, RECORD_SIZE};
use numbers::{MAX_ID, MAX_NUMBER, MAX_WORD};
use weights::FULL_SLICE;

static GONE_MOST: [u64; RECORD_SIZE] = [
    1, MAX_ID, 0, 0, 0, 0, 0, 0, 0, 0, 0, 0, 0, 0, 0, 0, 0, 0, 0, 0, 0, 0, 0, 0, 0, 0,
];

#[tactic(auto, unfolding(crate::specs::Ranges::wake_marked))]
fn wake_marked(w: &[u64]) -> bool
    requires { length w.now ≡ record_size }
    ensures { result ≡ wake_marked w.now }
{
    w[places::HAS_WAKE] == 1 || w[places::WAKE] == 0
}

#[tactic(auto, unfolding(crate::specs::Ranges::key_marked))]
fn key_marked(w: &[u64]) -> bool
    requires { length w.now ≡ record_size }
    ensures { result ≡ key_marked w.now }
{
    w[places::HAS_QUEUE_KEY] == 1
        || (w[places::QUEUE_KEY_VD] == 0 && w[places::QUEUE_KEY_REM_SLICE] == 0)
}

// Words with a bound of their own. An affinity may be any word: its line is that of the definition, which names every word.
#[tactic(auto, unfolding(crate::specs::Singles::single_words))]
fn single_words(w: &[u64], c: u64) -> bool
    requires { length w.now ≡ record_size }
    ensures { result ≡ single_words c w.now }
{
    w[places::DEBUG_ID] <= MAX_ID
        && w[places::STATUS] <= 5
        && w[places::CPU_ID] <= c
        && w[places::SCHED_AFFINITY] <= MAX_WORD
        && w[places::PRIO] <= 39
        && w[places::REM_SLICE] <= FULL_SLICE
        && w[places::QUEUE_KEY_REM_SLICE] <= FULL_SLICE
        && w[places::LOCK] <= 2
        && w[places::ADDR_SPACE] <= 2
}

// Words that share a bound of all ones are taken together: none is above it if all of them together are not.
#[tactic(auto, using(crate::proofs::Together::within_is))]
fn live_in_range(w: &[u64], c: u64) -> bool
    requires { length w.now ≡ record_size }
    ensures { result ≡ within (context_most c) w.now record_size }
{
    let marks = w[places::GONE]
        | w[places::RUNNING]
        | w[places::CURRENTLY_SCHEDULED]
        | w[places::INSIDE_SYSCALL]
        | w[places::HAS_WAKE]
        | w[places::USERSPACE]
        | w[places::BEING_SIGKILLED]
        | w[places::IS_ACTIVE]
        | w[places::HAS_QUEUE_KEY];
    let numbers = w[places::SCHEDULE_TIME]
        | w[places::SWITCH_TIME]
        | w[places::ACTIVE_CPU_TIME]
        | w[places::SCHED_CPU_TIME]
        | w[places::WAKE]
        | w[places::VTIME]
        | w[places::VD]
        | w[places::QUEUE_KEY_VD];
    marks <= 1 && numbers <= MAX_NUMBER && single_words(w, c)
}

#[tactic(auto, unfolding(crate::specs::Ranges::context_in_range_to, crate::specs::Ranges::gone_most))]
fn context_in_range(w: &[u64], c: u64) -> bool
    requires { length w.now ≡ record_size }
    ensures { result ≡ context_in_range c w.now }
{
    if w[places::GONE] == 1 {
        return ranges::within(&GONE_MOST, w);
    }
    live_in_range(w, c) && wake_marked(w) && key_marked(w)
}

pub fn contexts_in_range(m: &[u64], c: u64, n: usize) -> bool
    requires { (context_place n ≤ length m.now) × (n ≤ 64) }
    ensures { result ≡ contexts_in_range c n m.now }
{
    for x in 0..n {
        let at = machine::context_place(x);
        let end = at + RECORD_SIZE;
        if !context_in_range(&m[at..end], c) {
            return false;
        }
    }
    true
}
