// Stealing judged by the plain engine, by value: which CPU has enough, and which of its entries can be stolen.
#![tactic(auto)]

mod judge;
#[cfg(test)]
mod tests;
mod victim;

ghost use Rattle.std.specs.Prelude.{suc, ◌<◌, ◌≤◌};
ghost use Rattle.columns.specs.Common.{All};
ghost use Rattle.machine.specs.Shape.{EntryFits};
ghost use Rattle.plain_model.specs.Steal.{take_candidate, candidates};
ghost use Rattle.plain_lists.specs.Lists.{entries_of, Sized, Stands};
ghost use Rattle.plain_state.specs.States.{state_in, Sound};
ghost use Rattle.plain_candidates.specs.Stolen.{locked_of};

use entries::Entry;
pub use judge::{Locked, Thief};
use plain_lists::Queue;
use plain_state::State;
pub use victim::{can_steal_from, want};

// One more, if it is wanted and can be stolen.
fn take_candidate(s: State, n: usize, t: Thief, got: Queue, e: Entry) -> Queue
    requires { (Sound n s) × (Sized got) × (e.context_ref < n) × (t.cpu < 64) × (got.len < 64) }
    ensures stands { Stands result (take_candidate t.cpu (locked_of t.locked) (state_in n s).contexts t.winner t.want (entries_of got) e) }
    ensures len_bound { result.len ≤ suc got.len }
{
    let x = numbers::index(e.context_ref);
    let q = s.context(n, x);
    got.push_if_sized(got.len < t.want && judge::can_be_stolen(t, got, x, q), e)
}

// The first that can be stolen, each in its turn; later ones are looked at and left.
pub fn candidates(s: State, n: usize, t: Thief, q: Queue) -> Queue
    requires { (Sound n s) × (All (EntryFits n) (entries_of q)) × (t.cpu < 64) }
    ensures { Stands result (candidates t.cpu (locked_of t.locked) (state_in n s).contexts t.winner t.want (entries_of q)) }
{
    candidates_sized(s, n, t, q.clamped())
}

pub fn candidates_sized(s: State, n: usize, t: Thief, q: Queue) -> Queue
    requires { (Sound n s) × (Sized q) × (All (EntryFits n) (entries_of q)) × (t.cpu < 64) }
    ensures { Stands result (candidates t.cpu (locked_of t.locked) (state_in n s).contexts t.winner t.want (entries_of q)) }
{
    let turns = q.by_rank();
    let mut got = q.cleared();
    for e in turns.as_slice_sized() {
        got = take_candidate(s, n, t, got, *e);
    }
    got
}
