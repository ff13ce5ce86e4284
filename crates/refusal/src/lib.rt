// Why a call is refused, with the number that the C interface gives it (docs/IMAGE.md).
#![tactic(auto)]

ghost use Rattle.std.specs.Prelude.{◌≡◌};
ghost use Rattle.refusal.specs.Number.{refusal_number};

use answer::Answer;

// In the order of the checks; numbers 10 to 12 are the cue board's.
#[derive(Clone, Copy, PartialEq, Eq, PartialOrd, Ord)]
pub enum Refusal {
    Size = 1,
    Length = 2,
    Range = 3,
    Structure = 4,
    // no such operation, CPU or context
    Name = 5,
    Lock = 6,
    Idle = 7,
    Late = 8,
    NoRoom = 9,
    // a commit whose reply is another
    Reply = 13,
    // rounds out of bounds, or one context twice
    Game = 14,
}

impl From<Refusal> for u64 {
    ghost from_gives = { λ refusal number. number ≡ refusal_number refusal };

    fn from(refusal: Refusal) -> u64 {
        refusal as u64
    }
}

pub fn refused(refusal: Refusal) -> Answer
    ensures { result ≡ record { refusal = refusal_number refusal; result = 0; interrupt = 0; rule = 0 } }
{
    answer::refused(refusal.into())
}
