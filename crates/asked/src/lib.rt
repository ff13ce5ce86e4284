// The five numbers that are told of a reply, and two of them compared.
#![tactic(auto)]

ghost use Rattle.std.specs.Prelude.{◌≡◌, ◌∷◌, ◌++◌, get_or, Some, decimal};
ghost use Rattle.context_ops.specs.Reply.{reply};
ghost use Rattle.asked.specs.OfReply.{refused, accepted, BlockInside, asked_of, same, commit_refusal};

use answer::Answer;
use percpu::places;
use std::fmt;

// 0 or the number of its refusal, the result, and the CPU's context in charge, current context and V
#[repr(C)]
#[derive(Clone, Copy, PartialEq)]
pub struct Asked {
    pub refusal: u64,
    pub result: u64,
    pub in_charge: u64,
    pub current: u64,
    pub v: u64,
}

pub fn refused(number: u64) -> Asked
    ensures { result ≡ refused number }
{
    Asked {
        refusal: number,
        result: 0,
        in_charge: 0,
        current: 0,
        v: 0,
    }
}

// Of an accepted call, from the block of CPU cpu.
fn accepted(image: &[u64], n: usize, cpu: usize, res: u64) -> Asked
    requires { BlockInside n cpu image.now }
    ensures { result ≡ accepted n cpu res image.now }
{
    let at = machine::cpu_place(n, cpu);
    Asked {
        refusal: 0,
        result: res,
        in_charge: image[at + places::SCHED_CTXT],
        current: image[at + places::CURRENT_CTXT],
        v: image[at + places::V],
    }
}

// Of a call on CPU cpu that answered a and left the image, which has n contexts.
pub fn asked_of(image: &[u64], n: usize, cpu: u64, a: Answer) -> Asked
    requires { a.refusal ≡ 0 → BlockInside n cpu image.now }
    ensures { result ≡ asked_of n cpu (reply a image.now) }
{
    if a.refusal != 0 {
        return refused(a.refusal);
    }
    accepted(image, n, numbers::index(cpu), a.result)
}

// How many contexts an image has; 0 if it is too short to say.
pub fn contexts(image: &[u64]) -> usize
    ensures { result ≡ get_or image.now 1 0 }
{
    if 1 < image.len() {
        return numbers::index(image[1]);
    }
    0
}

// Whether two replies are the same in all five numbers.
#[tactic(auto, unfolding(crate::specs::OfReply::same))]
fn same(a: Asked, b: Asked) -> bool
    ensures { result ≡ same a b }
{
    a == b
}

// The switch's own refusal comes first; 13 is checked last. A number, not a Refusal: it hands on a word of Asked, which is a struct of C.
pub fn commit_refusal(given: Asked, now: Asked) -> u64
    ensures { result ≡ commit_refusal given now }
{
    if now.refusal != 0 {
        return now.refusal;
    }
    if same(given, now) {
        return 0;
    }
    13
}

// Its five numbers, a space (32) between two.
impl fmt::Display for Asked {
    ghost output = { λ a. Some (decimal a.refusal ++ 32 ∷ decimal a.result ++ 32 ∷ decimal a.in_charge ++ 32 ∷ decimal a.current ++ 32 ∷ decimal a.v) };

    fn fmt<W: fmt::Write>(&self, f: &mut fmt::Formatter<W>) -> fmt::Result {
        write!(
            f,
            "{} {} {} {} {}",
            self.refusal, self.result, self.in_charge, self.current, self.v
        )
    }
}
