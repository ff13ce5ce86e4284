// Elapsed nanoseconds in scaled ticks. What a division leaves over is carried to the next one.
#![tactic(auto)]

ghost use Rattle.std.specs.Prelude.{◌≡◌, ℕ, ◌-◌, ◌<◌, ◌≤◌};
ghost use Rattle.ticks.specs.Ticks.{converted, max_ticks, max_remainder};
ghost use Rattle.numbers.specs.Limits.{max_elapsed};

// scaled ticks to a tick
pub const SCALE: u64 = 1 << 30;

// ticks to a switch
pub const TICK_INTERVAL: u64 = 3;

pub const NANOS_PER_TICK: u64 = 2_250_000;

// the greatest remainder of a conversion
pub const MAX_REMAINDER: u64 = NANOS_PER_TICK - 1;

// A turn: its nanoseconds, and the scaled ticks that they are converted to. No ghost field bounds the ticks: the definitions
// (`spent` of model) make a turn of any length, and a ghost field is one of the definitions' record, too (c).
#[derive(Clone, Copy)]
pub struct Spent {
    pub elapsed: u64,
    pub ticks: u64,
}

// What a conversion gives: the ticks, and what the next one carries.
#[derive(Clone, Copy)]
pub struct Converted {
    pub ticks: u64,
    pub remainder: u64,
}

// The source's 128-bit product is avoided: whole ticks and the rest are scaled apart.
pub fn convert(elapsed: u64, carried: u64) -> Converted
    requires { (elapsed ≤ max_elapsed) × (carried ≤ max_remainder) }
    ensures { (result ≡ converted elapsed carried) × ((result.ticks ≤ max_ticks) × (result.remainder ≤ max_remainder)) }
{
    let whole = elapsed / NANOS_PER_TICK;
    let rest = elapsed % NANOS_PER_TICK;
    let fraction = rest * SCALE + carried;
    Converted {
        ticks: whole * SCALE + fraction / NANOS_PER_TICK,
        remainder: fraction % NANOS_PER_TICK,
    }
}
