// The limits that document 01 sets to the image's numbers, and the casts between a word and an index.
#![tactic(auto)]

ghost use Rattle.std.specs.Prelude.{◌≡◌};

// the greatest of a number that has no range of its own, and of a call's time
pub const MAX_NUMBER: u64 = (1 << 62) - 1;

// the longest time since a CPU's last decision that a call may have, in ns
pub const MAX_ELAPSED: u64 = (1 << 52) - 1;

pub const MAX_ID: u64 = (1 << 32) - 1;

// the greatest of a word that has no range
pub const MAX_WORD: u64 = u64::MAX;

pub const NANOS_PER_MILLISECOND: u64 = 1_000_000;

// Named, for `as` says neither which way it goes nor that nothing is cut off, and From and TryFrom have no total cast of these.
pub fn index(x: u64) -> usize
    ensures { result ≡ x }
{
    x as usize
}

pub fn word(x: usize) -> u64
    ensures { result ≡ x }
{
    x as u64
}
