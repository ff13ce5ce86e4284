// Another CPU judged: whether it has enough, and how many of its entries are wanted.
ghost use Rattle.std.specs.Prelude.{◌≡◌, ◌-◌, ◌/◌, ◌≤◌, min, max};
ghost use Rattle.model.specs.Steal.{max_steal};
ghost use Rattle.steal_judge.specs.Judged.{has_enough};

const STEAL_THRESHOLD: usize = 2;

const MAX_STEAL: usize = 2;

// The length is tested as published, then as it is.
#[tactic(auto, unfolding(crate::specs::Judged::has_enough))]
pub fn can_steal_from(
    stealable: bool,
    published: usize,
    locked: bool,
    len: usize,
    load: usize,
) -> bool
    requires { (len ≤ 64) × (load ≤ 65) }
    ensures { result ≡ has_enough stealable published locked len load }
{
    // of the published length as load + STEAL_THRESHOLD <= published + 1, without a sum that may wrap
    stealable && load + 1 <= published && !locked && load + STEAL_THRESHOLD <= len + 1
}

pub fn want(there: usize, here: usize) -> usize
    ensures { (result ≡ max 1 (min max_steal ((there - here) / 2))) × (1 ≤ result) × (result ≤ 2) }
{
    (there.saturating_sub(here) / 2).min(MAX_STEAL).max(1)
}
