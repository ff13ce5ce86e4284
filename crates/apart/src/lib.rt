// Whether two CPUs name no context together, in any roles.
// A block is lent as its words; m is the image of a machine of c CPUs and n contexts.
#![tactic(auto)]

ghost use Rattle.std.specs.Prelude.{◌≡◌, not, ◌&&◌, ℕ, ◌<◌, length};
ghost use Rattle.columns.specs.Common.{every};
ghost use Rattle.percpu.specs.Places.{block_size};
ghost use Rattle.machine.specs.Machine.{Machine};
ghost use Rattle.machine.specs.Encode.{encode};
ghost use Rattle.machine.specs.Shape.{Image, Fits};
ghost use Rattle.machine.specs.LookUp.{get_percpu_block};
ghost use Rattle.model_local.specs.Apart.{are_apart};
ghost use Rattle.apart.specs.Words.{has_seat, is_listed, is_named_in, Column, Counted};
ghost use Rattle.apart.specs.Answer.{apart_answer};

use answer::Answer;
use percpu::places;
use refusal::{Refusal, refused};

// Current, in charge or idle.
#[tactic(auto, unfolding(crate::specs::Words::has_seat))]
fn has_seat(b: &[u64], x: u64) -> bool
    requires { length b.now ≡ block_size }
    ensures { result ≡ has_seat b.now x }
{
    x == b[places::CURRENT_CTXT] || x == b[places::SCHED_CTXT] || x == b[places::IDLE_CTXT]
}

// Among the words from `start` on, of which there are as many as the word `counter` says.
fn is_listed(b: &[u64], counter: usize, start: usize, x: u64) -> bool
    requires { Column b.now counter start }
    ensures { result ≡ is_listed b.now counter start x }
{
    let count = numbers::index(b[counter]);
    b[start..start + count].contains(&x)
}

// In any role.
#[tactic(auto, unfolding(crate::specs::Words::is_named_in))]
fn is_named(b: &[u64], x: u64) -> bool
    requires { Counted b.now }
    ensures { result ≡ is_named_in b.now x }
{
    has_seat(b, x)
        || is_listed(b, places::QUEUE_COUNT, places::ENTRY_CONTEXT_REF, x)
        || is_listed(b, places::TIMERS_COUNT, places::TIMER_CONTEXT_REF, x)
        || is_listed(b, places::LOCAL_COUNT, places::LOCAL_WAKEUP_LIST, x)
        || is_listed(b, places::IPI_COUNT, places::IPI_CONTEXT_WAKEUP_LIST, x)
}

fn both_name(one: &[u64], other: &[u64], x: u64) -> bool
    requires counted { Counted one.now }
    requires counted_2 { Counted other.now }
    ensures { result ≡ (is_named_in one.now x && is_named_in other.now x) }
{
    is_named(one, x) && is_named(other, x)
}

// Of two blocks, and the contexts below n.
fn blocks_apart(one: &[u64], other: &[u64], n: usize) -> bool
    requires counted { Counted one.now }
    requires counted_2 { Counted other.now }
    ensures { result ≡ every (λ (x : ℕ). not (is_named_in one.now x && is_named_in other.now x)) n }
{
    for x in 0..n {
        if both_name(one, other, numbers::word(x)) {
            return false;
        }
    }
    true
}

// Of two CPUs of the image.
pub fn are_apart(m: &[u64], c: usize, n: usize, one: usize, other: usize) -> bool
    requires image { Image c n m.now }
    requires one_lt_c { one < c }
    requires other_lt_c { other < c }
    ensures { (M : Machine) → m.now ≡ encode M → Fits c n M → result ≡ are_apart M one other }
{
    let at = machine::cpu_place(n, one);
    let end = at + places::BLOCK_SIZE;
    let to = machine::cpu_place(n, other);
    let to_end = to + places::BLOCK_SIZE;
    blocks_apart(&m[at..end], &m[to..to_end], n)
}

// Refusal 5 for either CPU, or 1 as the result if they are apart.
pub fn answer(m: &[u64], c: usize, n: usize, one: u64, other: u64) -> Answer
    requires { Image c n m.now }
    ensures { (M : Machine) → m.now ≡ encode M → Fits c n M → result ≡ apart_answer M (get_percpu_block M one) (get_percpu_block M other) }
{
    let Some(a) = machine::get_percpu_block(m, c, n, one) else {
        return refused(Refusal::Name);
    };
    let Some(b) = machine::get_percpu_block(m, c, n, other) else {
        return refused(Refusal::Name);
    };
    answer::accepted(are_apart(m, c, n, a, b) as u64)
}
