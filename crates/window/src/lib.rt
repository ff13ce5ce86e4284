// A window: the last decisions of one CPU, 256 at most, oldest first.
#![tactic(auto)]

ghost use Rattle.std.specs.Prelude.{◌≡◌, ◌≤◌, ◌<◌, length, get_or};
ghost use Rattle.columns.specs.Common.{every};
ghost use Rattle.window.specs.Window.{
  window_size,
  capacity,
  count_of,
  record_at,
  records,
  is_in_range,
  refusal,
  without_oldest,
  appended,
  added,
};
ghost use Rattle.window.specs.Shares.{time_for, sum_for, share_answer};
ghost use Rattle.window.specs.Passes.{Passes};
ghost use Rattle.refusal.specs.Number.{refusal_of};

use answer::Answer;
use refusal::{Refusal, refused};

pub const CAPACITY: usize = 256;

// the count, then the contexts and the times of the records
pub const COUNT: usize = 0;

pub const CONTEXTS: usize = 1;

pub const TIMES: usize = CONTEXTS + CAPACITY;

pub const WINDOW_SIZE: usize = TIMES + CAPACITY;

// A decision: the context in charge before it, and the nanoseconds since the one before.
#[derive(Clone, Copy)]
pub struct Record {
    pub context: u64,
    pub time: u64,
}

// Whose time is added up. No Option: `All` is no lack of a context.
#[derive(Clone, Copy)]
pub enum Whose {
    Context(u64),
    All,
}

fn in_range(w: &[u64], count: usize, n: u64) -> bool
    requires { (length w.now ≡ window_size) × (count ≤ capacity) }
    ensures { result ≡ every (λ i. is_in_range n (record_at w.now i)) count }
{
    for i in 0..count {
        if n <= w[CONTEXTS + i] || numbers::MAX_ELAPSED < w[TIMES + i] {
            return false;
        }
    }
    true
}

// A window is checked for an image of n contexts.
pub fn check(w: &[u64], n: u64) -> Result<(), Refusal>
    ensures { refusal_of result ≡ refusal n w.now }
{
    if w.len() != WINDOW_SIZE {
        return Err(Refusal::Size);
    }
    let count = numbers::index(w[COUNT]);
    if CAPACITY < count {
        return Err(Refusal::Size);
    }
    if in_range(w, count, n) {
        return Ok(());
    }
    Err(Refusal::Range)
}

// All records but the oldest, of a window that is full.
fn drop_oldest(w: &mut [u64])
    requires { length w.old ≡ window_size }
    ensures { w.new ≡ without_oldest w.old }
{
    columns::remove_at(&mut w[CONTEXTS..TIMES], CAPACITY, 0);
    columns::remove_at(&mut w[TIMES..WINDOW_SIZE], CAPACITY, 0);
    w[COUNT] = numbers::word(CAPACITY - 1);
}

fn append(w: &mut [u64], r: Record)
    requires { (length w.old ≡ window_size) × (count_of w.old < capacity) }
    ensures { w.new ≡ appended w.old r }
{
    let count = numbers::index(w[COUNT]);
    w[COUNT] = numbers::word(count + 1);
    w[CONTEXTS + count] = r.context;
    w[TIMES + count] = r.time;
}

// Adds a record; the oldest leaves first where the window is full.
#[tactic(auto, unfolding(crate::specs::Window::added))]
pub fn add(w: &mut [u64], r: Record)
    requires { (length w.old ≡ window_size) × (count_of w.old ≤ capacity) }
    ensures { w.new ≡ added w.old r }
{
    if CAPACITY <= numbers::index(w[COUNT]) {
        drop_oldest(w);
    }
    append(w, r);
}

fn time_for(whose: Whose, context: u64, time: u64) -> u64
    ensures { (result ≡ time_for whose (record { context = context; time = time })) × (result ≤ time) }
{
    match whose {
        Whose::Context(x) => {
            if context == x {
                return time;
            }
            0
        }
        Whose::All => time,
    }
}

fn sum(w: &[u64], n: u64, whose: Whose) -> u64
    requires { Passes n w.now }
    ensures { result ≡ sum_for whose (records w.now) }
{
    let count = numbers::index(w[COUNT]);
    let mut total = 0;
    for i in 0..count {
        total += time_for(whose, w[CONTEXTS + i], w[TIMES + i]);
    }
    total
}

// The time of one context or of all in the window, which is checked for n contexts. The result is the sum.
pub fn share(w: &[u64], n: u64, whose: Whose) -> Answer
    ensures { result ≡ share_answer n whose w.now }
{
    if let Err(refusal) = check(w, n) {
        return refused(refusal);
    }
    answer::accepted(sum(w, n, whose))
}
