// Weights by priority (`SCHED_PRIO_TO_WEIGHT`), and the whole slice of each priority.
#![tactic(auto)]

ghost use Rattle.std.specs.Prelude.{◌≡◌, ℕ, ◌<◌, ◌≤◌};
ghost use Rattle.weights.specs.Weights.{weight, whole_slice, min_weight, max_weight, max_whole_slice};

static SCHED_PRIO_TO_WEIGHT: [u64; 40] = [
    88761, 71755, 56483, 46273, 36291, 29154, 23254, 18705, 14949, 11916, 9548, 7620, 6100, 4904,
    3906, 3121, 2501, 1991, 1586, 1277, 1024, 820, 655, 526, 423, 335, 272, 215, 172, 137, 110, 87,
    70, 56, 45, 36, 29, 23, 18, 15,
];

// the least and the greatest of the weights
pub const MIN_WEIGHT: u64 = 15;

pub const MAX_WEIGHT: u64 = 88761;

const BASE_SLICE_TICKS: u64 = ticks::TICK_INTERVAL * 3;

// a full slice, in scaled ticks
pub const FULL_SLICE: u64 = BASE_SLICE_TICKS * ticks::SCALE;

pub fn weight_of(prio: u64) -> u64
    requires { prio < 40 }
    ensures { (result ≡ weight prio) × (min_weight ≤ result) × (result ≤ max_weight) }
{
    SCHED_PRIO_TO_WEIGHT[prio as usize]
}

pub fn slice_of(prio: u64) -> u64
    requires { prio < 40 }
    ensures { (result ≡ whole_slice prio) × (result ≤ max_whole_slice) }
{
    FULL_SLICE / weight_of(prio)
}
