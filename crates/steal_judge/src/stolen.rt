// A context of the victim's queue judged, and its record once it is stolen.
ghost use Rattle.std.specs.Prelude.{◌≡◌, ◌+◌, ◌-◌, ◌<◌, ◌≤◌};
ghost use Rattle.model.specs.Steal.{moved};
ghost use Rattle.steal_judge.specs.Names.{locked_of, entries_of};
ghost use Rattle.steal_judge.specs.Judged.{stolen_record, is_free, may_move};
ghost use Rattle.numbers.specs.Limits.{max_word};
ghost use Rattle.weights.specs.Weights.{full_slice, min_weight};

use crate::{Candidates, Locked};
use context::Context;

#[tactic(auto, unfolding(crate::specs::Judged::is_free))]
fn is_free(w: Option<usize>, locked: Locked, got: Candidates, x: usize) -> bool
    ensures { result ≡ is_free (locked_of locked) w (entries_of got) x }
{
    !(locked.contains(x) || w == Some(x) || got.contains(numbers::word(x)))
}

#[tactic(auto, unfolding(crate::specs::Judged::may_move))]
fn may_move(q: Context, cpu: u64) -> bool
    requires { cpu < 64 }
    ensures { result ≡ may_move cpu q }
{
    cpu_set::contains(q.sched_affinity, cpu)
        && q.status.is_runnable()
        && !q.running
        && !q.currently_scheduled
        && q.addr_space != 2
}

// q is the record of context x, which is live.
#[tactic(auto, unfolding(crate::specs::Judged::stolen_record))]
pub fn can_be_stolen(
    q: Context,
    cpu: u64,
    w: Option<usize>,
    locked: Locked,
    got: Candidates,
    x: usize,
) -> bool
    requires { cpu < 64 }
    ensures { result ≡ stolen_record cpu (locked_of locked) w (entries_of got) x q }
{
    q.lock == 0 && is_free(w, locked, got, x) && may_move(q, cpu)
}

// A stolen record: as far from V here as it was from V there, a deadline by the slice that it has left.
pub fn moved(mut q: Context, here: u64, there: u64, weight: u64) -> Context
    requires { (here + q.vtime ≤ (max_word - full_slice)) × (min_weight ≤ weight) × (q.rem_slice ≤ full_slice) }
    ensures { result ≡ moved here there weight q }
{
    let vtime = (here + q.vtime).saturating_sub(there);
    q.vtime = vtime;
    q.vd = vtime + q.rem_slice / weight;
    q.without_key()
}
