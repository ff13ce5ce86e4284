// What a call answers.
#![tactic(auto)]

ghost use Rattle.std.specs.Prelude.{◌≡◌, ◌∷◌, ◌++◌, Some, decimal};
ghost use Rattle.answer.specs.Number.{result_number, rule_number};

use std::fmt;

// 0 or the number of its refusal, the result, whether a wake-up went to another CPU, and the number of the rule that decided
#[repr(C)]
#[derive(Clone, Copy)]
pub struct Answer {
    pub refusal: u64,
    pub result: u64,
    pub interrupt: u64,
    pub rule: u64,
}

pub fn refused(number: u64) -> Answer
    ensures { result ≡ record { refusal = number; result = 0; interrupt = 0; rule = 0 } }
{
    Answer {
        refusal: number,
        result: 0,
        interrupt: 0,
        rule: 0,
    }
}

// A call that decides nothing, and sends no wake-up to another CPU.
pub fn accepted(value: u64) -> Answer
    ensures { result ≡ record { refusal = 0; result = value; interrupt = 0; rule = 0 } }
{
    Answer {
        refusal: 0,
        result: value,
        interrupt: 0,
        rule: 0,
    }
}

// what a switch comes to (context/switch.rs)
#[derive(Clone, Copy, PartialEq, Eq)]
pub enum SwitchResult {
    Switched = 1,
    AllContextsIdle = 2,
}

impl From<SwitchResult> for u64 {
    ghost from_gives = { λ r number. number ≡ result_number r };

    fn from(r: SwitchResult) -> u64 {
        r as u64
    }
}

// Who is left in charge by a decision, and why, with the rule's number.
#[derive(Clone, Copy, PartialEq, Eq)]
pub enum Rule {
    // the first eligible entry
    FirstEligible = 1,
    // the holder, eligible: an earlier deadline than that entry's, or the same with more slice left
    HolderDeadline = 2,
    HolderSlice = 3,
    // the holder, alone eligible
    HolderAlone = 4,
    // nobody is eligible: the holder by its virtual time, the holder by its deadline, the entry of least virtual time
    HolderVtime = 5,
    HolderLateDeadline = 6,
    EntryVtime = 7,
    // nobody waits here
    Stolen = 8,
    Idle = 9,
}

impl From<Rule> for u64 {
    ghost from_gives = { λ rule number. number ≡ rule_number rule };

    fn from(rule: Rule) -> u64 {
        rule as u64
    }
}

// Its four numbers, a space (32) between two.
impl fmt::Display for Answer {
    ghost output = { λ a. Some (decimal a.refusal ++ 32 ∷ decimal a.result ++ 32 ∷ decimal a.interrupt ++ 32 ∷ decimal a.rule) };

    fn fmt<W: fmt::Write>(&self, f: &mut fmt::Formatter<W>) -> fmt::Result {
        write!(
            f,
            "{} {} {} {}",
            self.refusal, self.result, self.interrupt, self.rule
        )
    }
}
