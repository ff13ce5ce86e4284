// The timers in a CPU's block: two columns, sorted by wake and context (a `BTreeSet` in context/mod.rs).
#![tactic(auto)]

ghost use Rattle.std.specs.Prelude.{◌≡◌, ℕ, ◌+◌, ◌-◌, ◌<◌, ◌≤◌, length, get_or, slice_index, is_err};
ghost use Rattle.columns.specs.Columns.{remove_at};
ghost use Rattle.entries.specs.Order.{sooner, is_due};
ghost use Rattle.entries.specs.Sorted.{Sorted};
ghost use Rattle.percpu.specs.Cpu.{Cpu};
ghost use Rattle.percpu.specs.With.{cpu_timers};
ghost use Rattle.percpu.specs.Layout.{cpu_words, timer_at};
ghost use Rattle.table.specs.First.{lead};
ghost use Rattle.timers.specs.Put.{no_room, timer_put, newest};
ghost use Rattle.numbers.specs.Limits.{half_range};
ghost use Rattle.percpu.specs.Places.{timers_count, block_size};

use entries::Timer;
use percpu::places::{TIMER_CONTEXT_REF, TIMER_WAKE, TIMERS_COUNT};
use table::{NoRoom, TIMERS};

pub fn timer(b: &[u64], i: usize) -> Timer
    requires { (length b.now ≡ block_size) × (i < 64) }
    ensures { result ≡ timer_at b.now i }
{
    Timer {
        wake: b[TIMER_WAKE + i],
        context_ref: b[TIMER_CONTEXT_REF + i],
    }
}

// An equal pair adds nothing.
pub fn insert(b: &mut [u64], t: Timer) -> Result<(), NoRoom>
    requires { (length b.old ≡ block_size) × (get_or b.old timers_count 0 ≤ 64) }
    ensures { (c : Cpu) → b.old ≡ cpu_words c → length c.timers ≤ 64 → Sorted sooner c.timers → (is_err result ≡ no_room t c) × (b.new ≡ cpu_words (timer_put t c)) }
{
    TIMERS.insert(b, t.into(), &[t.wake, t.context_ref])
}

// How many words at the front are no more than last.
fn first_above(wakes: &[u64], last: u64) -> usize
    ensures within { result ≤ length wakes.now }
    ensures before { (i : ℕ) → i < result → slice_index wakes.now i ≤ last }
    ensures at { result < length wakes.now → last < slice_index wakes.now result }
{
    wakes
        .iter()
        .position(|wake| last < *wake)
        .unwrap_or(wakes.len())
}

// How many timers at the front are due.
pub fn due(b: &[u64], time: u64) -> usize
    requires { (length b.now ≡ block_size) × (get_or b.now timers_count 0 ≤ 64) × (time < half_range) }
    ensures { (result ≤ get_or b.now timers_count 0) × ((c : Cpu) → b.now ≡ cpu_words c → length c.timers ≤ 64 → result ≡ lead (is_due time) c.timers) }
{
    let n = b[TIMERS_COUNT] as usize;
    let last = time + 1;
    first_above(&b[TIMER_WAKE..TIMER_WAKE + n], last)
}

// Timer i taken out; the words that it frees are 0.
pub fn remove(b: &mut [u64], i: usize)
    requires { (length b.old ≡ block_size) × (get_or b.old timers_count 0 ≤ 64) × (i < get_or b.old timers_count 0) }
    ensures timers_count_after { get_or b.new timers_count 0 ≡ get_or b.old timers_count 0 - 1 }
    ensures b_after { (c : Cpu) → b.old ≡ cpu_words c → length c.timers ≤ 64 → b.new ≡ cpu_words (cpu_timers (remove_at i c.timers) c) }
{
    TIMERS.remove_at(b, i);
}

// Every other timer of t's context taken out, from the last to the first, so that a place is one of the set as it was.
fn remove_superseded(b: &mut [u64], t: Timer)
    requires { (length b.old ≡ block_size) × (get_or b.old timers_count 0 ≤ 64) }
    ensures { (get_or b.new timers_count 0 ≤ 64) × ((c : Cpu) → b.old ≡ cpu_words c → length c.timers ≤ 64 → b.new ≡ cpu_words (newest t c)) }
{
    let n = b[TIMERS_COUNT] as usize;
    for i in (0..n).rev() {
        let u = timer(b, i);
        if t.supersedes(u) {
            remove(b, i);
        }
    }
}

// The newest timer of its context stands: the others leave first. No image that passed its check comes to no room here: one timer to a context are 64 at most (model_leaves/proofs/TimerRoom).
pub fn insert_newest(b: &mut [u64], t: Timer) -> Result<(), NoRoom>
    requires { (length b.old ≡ block_size) × (get_or b.old timers_count 0 ≤ 64) }
    ensures { (c : Cpu) → b.old ≡ cpu_words c → length c.timers ≤ 64 → Sorted sooner c.timers → (is_err result ≡ no_room t (newest t c)) × (b.new ≡ cpu_words (timer_put t (newest t c))) }
{
    remove_superseded(b, t);
    insert(b, t)
}
