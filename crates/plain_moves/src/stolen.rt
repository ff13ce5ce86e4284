// A stolen record: as far from V here as it was from V there, a deadline by the slice that it has left.
// Its own code and not steal_judge's: the plain engine shares no function of a stage with the fast one.
ghost use Rattle.std.specs.Prelude.{◌≡◌, ◌+◌, ◌-◌, ◌≤◌};
ghost use Rattle.model.specs.Steal.{moved};
ghost use Rattle.numbers.specs.Limits.{max_word};
ghost use Rattle.weights.specs.Weights.{full_slice, min_weight};

use context::Context;

pub fn moved(mut q: Context, here: u64, there: u64, weight: u64) -> Context
    requires { (here + q.vtime ≤ (max_word - full_slice)) × (min_weight ≤ weight) × (q.rem_slice ≤ full_slice) }
    ensures { result ≡ moved here there weight q }
{
    let vtime = (here + q.vtime).saturating_sub(there);
    q.vtime = vtime;
    q.vd = vtime + q.rem_slice / weight;
    q.without_key()
}
