// Work stealing judged by value (`select_next_context`, context/switch.rs).
#![tactic(auto)]

pub mod stolen;
pub mod victim;

ghost use Rattle.std.specs.Prelude.{◌≡◌, ◌+◌, ◌%◌, ◌<◌, [], ◌∷◌, ◌++◌, length, ◌==◌};
ghost use Rattle.numbers.specs.Limits.{word_range};
ghost use Rattle.model.specs.Steal.{member, contexts_of};
ghost use Rattle.steal_judge.specs.Names.{locked_of, entries_of};
ghost use Rattle.steal_judge.specs.Judged.{interval};

use entries::Entry;

const STEAL_INTERVAL: u64 = 16;

// of an idle CPU that has no winner
const IDLE_STEAL_INTERVAL: u64 = 2;

// the contexts that the decision keeps locked, the winner aside: the holder, and the best entry that was not eligible
#[derive(Clone, Copy)]
pub struct Locked {
    pub sched_ctxt: usize,
    pub best: Option<usize>,
}

// the entries found so far, at most two; as an array they would need a length beside them
#[derive(Clone, Copy)]
pub enum Candidates {
    Nothing,
    Single(Entry),
    Pair(Entry, Entry),
}

impl Locked {
    pub fn contains(self, x: usize) -> bool
        ensures { result ≡ member x (locked_of self) }
    {
        x == self.sched_ctxt || self.best == Some(x)
    }
}

impl Candidates {
    // One of them is context x's.
    pub fn contains(self, x: u64) -> bool
        ensures { result ≡ member x (contexts_of (entries_of self)) }
    {
        match self {
            Candidates::Nothing => false,
            Candidates::Single(a) => x == a.context_ref,
            Candidates::Pair(a, b) => x == a.context_ref || x == b.context_ref,
        }
    }

    pub fn len(self) -> usize
        ensures { result ≡ length (entries_of self) }
    {
        match self {
            Candidates::Nothing => 0,
            Candidates::Single(_) => 1,
            Candidates::Pair(_, _) => 2,
        }
    }

    // One more behind them.
    pub fn with(self, e: Entry) -> Candidates
        requires { length (entries_of self) < 2 }
        ensures { entries_of result ≡ entries_of self ++ (e ∷ []) }
    {
        match self {
            Candidates::Nothing => Candidates::Single(e),
            Candidates::Single(a) => Candidates::Pair(a, e),
            Candidates::Pair(a, b) => Candidates::Pair(a, b),
        }
    }
}

// Every 2nd counter value if idle is in charge without a winner, else every 16th.
pub fn should_steal(counter: u64, idle: bool, some: bool) -> bool
    ensures { result ≡ (counter % interval idle some == 0) }
{
    if idle && !some {
        return counter % IDLE_STEAL_INTERVAL == 0;
    }
    counter % STEAL_INTERVAL == 0
}

// The counter wraps.
pub fn next_counter(counter: u64) -> u64
    ensures { result ≡ (counter + 1) % word_range }
{
    std::num::wrapping_add_u64(counter, 1)
}
