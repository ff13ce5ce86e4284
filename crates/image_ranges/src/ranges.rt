// Every word of the CPUs' blocks in its range.
ghost use Rattle.std.specs.Prelude.{◌≡◌, Bool, true, ◌&&◌, ℕ, ◌+◌, ◌<◌, ◌≤◌, length, get_or};
ghost use Rattle.columns.specs.Common.{every};
ghost use Rattle.columns.specs.Blocks.{part};
ghost use Rattle.image_ranges.specs.Ranges.{within, zero_words, used, unused, array_in_range, block_in_range, blocks_in_range};
ghost use Rattle.percpu.specs.Places.{block_size, queue_count, timers_count, local_count, ipi_count};
ghost use Rattle.machine.specs.Encode.{cpu_place};

use numbers::{MAX_ID, MAX_NUMBER, MAX_WORD};
use percpu::places;
use weights::{FULL_SLICE, MAX_WEIGHT, MIN_WEIGHT};

// Each word is at most that of the table at its place.
pub fn within(table: &[u64], w: &[u64]) -> bool
    requires { length table.now ≤ length w.now }
    ensures { result ≡ within table.now w.now (length table.now) }
{
    for (i, most) in table.iter().enumerate() {
        if *most < w[i] {
            return false;
        }
    }
    true
}

// The words are taken together without leaving early, so that the compiler may take several at a time.
fn zero_words(w: &[u64]) -> bool
    ensures { result ≡ zero_words w.now (length w.now) }
{
    let mut all = 0;
    for x in w {
        all |= *x;
    }
    all == 0
}

fn used(a: &[u64], k: usize, low: u64, high: u64) -> bool
    requires { k ≤ length a.now }
    ensures { result ≡ used a.now k low high }
{
    for x in &a[..k] {
        if *x < low || high < *x {
            return false;
        }
    }
    true
}

fn unused(a: &[u64], k: usize) -> bool
    requires { (length a.now ≡ 64) × (k ≤ 64) }
    ensures { result ≡ unused a.now k }
{
    zero_words(&a[k..])
}

// The column at a place of a block, of which as many words are used as the word at s says.
#[tactic(auto, using(crate::proofs::Checked::column_lent))]
fn column_in_range(b: &[u64], at: usize, s: usize, low: u64, high: u64) -> bool
    requires { (at + 64 ≤ length b.now) × (s < length b.now) × (get_or b.now s 0 ≤ 64) }
    ensures { result ≡ (used (part b.now at 64) (get_or b.now s 0) low high && unused (part b.now at 64) (get_or b.now s 0)) }
{
    let k = numbers::index(b[s]);
    let end = at + places::ROOM;
    used(&b[at..end], k, low, high) && unused(&b[at..end], k)
}

#[tactic(auto, using(crate::proofs::Checked::columns_are))]
fn columns_in_range(b: &[u64], n: u64) -> bool
    requires b_len { (length b.now ≡ block_size) × (1 ≤ n) }
    requires counts { (get_or b.now queue_count 0 ≤ 64) × (get_or b.now timers_count 0 ≤ 64) × (get_or b.now local_count 0 ≤ 64) × (get_or b.now ipi_count 0 ≤ 64) }
    ensures { result ≡ every (array_in_range n b.now) 10 }
{
    let last = n - 1;
    column_in_range(b, places::KEY_VD, places::QUEUE_COUNT, 0, MAX_NUMBER)
        && column_in_range(b, places::KEY_REM_SLICE, places::QUEUE_COUNT, 0, FULL_SLICE)
        && column_in_range(b, places::KEY_CTXT_ID, places::QUEUE_COUNT, 0, MAX_ID)
        && column_in_range(b, places::ENTRY_VTIME, places::QUEUE_COUNT, 0, MAX_NUMBER)
        && column_in_range(
            b,
            places::ENTRY_WEIGHT,
            places::QUEUE_COUNT,
            MIN_WEIGHT,
            MAX_WEIGHT,
        )
        && column_in_range(b, places::ENTRY_CONTEXT_REF, places::QUEUE_COUNT, 0, last)
        && column_in_range(b, places::TIMER_WAKE, places::TIMERS_COUNT, 0, MAX_NUMBER)
        && column_in_range(b, places::TIMER_CONTEXT_REF, places::TIMERS_COUNT, 0, last)
        && column_in_range(b, places::LOCAL_WAKEUP_LIST, places::LOCAL_COUNT, 0, last)
        && column_in_range(
            b,
            places::IPI_CONTEXT_WAKEUP_LIST,
            places::IPI_COUNT,
            0,
            last,
        )
}

#[tactic(auto, unfolding(crate::specs::Ranges::block_in_range_to, crate::specs::Ranges::block_most_to))]
pub fn block_in_range(b: &[u64], n: u64) -> bool
    requires b_len { length b.now ≡ block_size }
    requires le_n { 1 ≤ n }
    ensures { result ≡ block_in_range n b.now }
{
    if b[places::PRESENT] == 0 {
        return zero_words(b);
    }
    let last = n - 1;
    let front = [
        1, last, last, last, MAX_NUMBER, MAX_NUMBER, 1, 1, 1, MAX_NUMBER, MAX_NUMBER, MAX_WORD, 2,
        MAX_NUMBER, MAX_NUMBER, MAX_NUMBER, MAX_NUMBER, MAX_NUMBER, 1, MAX_NUMBER, MAX_NUMBER, 64,
        64, 64, 64,
    ];
    within(&front, b) && b[places::REMAINDER] <= ticks::MAX_REMAINDER && columns_in_range(b, n)
}

pub fn blocks_in_range(m: &[u64], c: usize, n: usize) -> bool
    requires { (length m.now ≡ cpu_place n c) × (1 ≤ n) × (n ≤ 64) × (c ≤ 4) }
    ensures { result ≡ blocks_in_range c n m.now }
{
    let names = numbers::word(n);
    for k in 0..c {
        let at = machine::cpu_place(n, k);
        let end = at + places::BLOCK_SIZE;
        if !block_in_range(&m[at..end], names) {
            return false;
        }
    }
    true
}
