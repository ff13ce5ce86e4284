// An entry of another CPU's queue judged.
// Its own code and not steal_judge's: the plain engine shares no function of a stage with the fast one.
ghost use Rattle.std.specs.Prelude.{◌≡◌, ◌<◌};
ghost use Rattle.model.specs.Steal.{member, contexts_of};
ghost use Rattle.steal_judge.specs.Judged.{may_move};
ghost use Rattle.plain_model.specs.Steal.{is_held};
ghost use Rattle.plain_lists.specs.Lists.{entries_of, Sized};
ghost use Rattle.plain_candidates.specs.Stolen.{locked_of, stolen_record};

use context::Context;
use plain_lists::Queue;

// the contexts that the decision keeps locked, the winner aside: the holder, and the best late entry
#[derive(Clone, Copy)]
pub struct Locked {
    pub sched_ctxt: usize,
    pub best: Option<usize>,
}

// what the search goes by: the CPU that steals, its locks, its winner, and how many entries are wanted
#[derive(Clone, Copy)]
pub struct Thief {
    pub cpu: usize,
    pub locked: Locked,
    pub winner: Option<usize>,
    pub want: usize,
}

impl Locked {
    pub fn contains(self, x: usize) -> bool
        ensures { result ≡ member x (locked_of self) }
    {
        x == self.sched_ctxt || self.best == Some(x)
    }
}

// One of the entries taken is context x's. They are counted, as `any` would leave at the first.
fn is_taken(got: Queue, x: u64) -> bool
    requires { Sized got }
    ensures { result ≡ member x (contexts_of (entries_of got)) }
{
    got.as_slice_sized()
        .iter()
        .filter(|e| x == e.context_ref)
        .count()
        != 0
}

// The decision holds its lock.
fn is_held(t: Thief, got: Queue, x: usize) -> bool
    requires { Sized got }
    ensures { result ≡ is_held (locked_of t.locked) t.winner (entries_of got) x }
{
    t.locked.contains(x) || t.winner == Some(x) || is_taken(got, numbers::word(x))
}

#[tactic(auto, unfolding(steal_judge::specs::Judged::may_move))]
fn may_move(q: Context, cpu: u64) -> bool
    requires { cpu < 64 }
    ensures { result ≡ may_move cpu q }
{
    cpu_set::contains(q.sched_affinity, cpu)
        && q.status.is_runnable()
        && !q.running
        && !q.currently_scheduled
        && q.addr_space != 2
}

// q is the record of context x.
#[tactic(auto, unfolding(crate::specs::Stolen::stolen_record))]
pub fn can_be_stolen(t: Thief, got: Queue, x: usize, q: Context) -> bool
    requires { (Sized got) × (t.cpu < 64) }
    ensures { result ≡ stolen_record t.cpu (locked_of t.locked) t.winner (entries_of got) x q }
{
    !q.gone && q.lock == 0 && !is_held(t, got, x) && may_move(q, numbers::word(t.cpu))
}
