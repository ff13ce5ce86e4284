// The humblest priority that still gets the CPU: the largest number with which a context that is on no CPU would be left in charge.
#![tactic(auto)]

ghost use Rattle.std.specs.Prelude.{◌≡◌, ◌∷◌, ◌++◌, ◌≤◌, length, Some, decimal};
ghost use Rattle.machine.specs.Encode.{decode, max_image_size};
ghost use Rattle.image.specs.Refusal.{size_c, size_n, image_refusal};
ghost use Rattle.candidate.specs.Candidate.{candidate};
ghost use Rattle.priority_trial.specs.Ready.{Ready};
ghost use Rattle.priority_trial.specs.Works.{works};
ghost use Rattle.humblest.specs.Humblest.{refused, found, priorities, greatest, humblest_of, humblest};
ghost use Rattle.refusal.specs.Number.{refusal_number};

use machine::CpuPlace;
use refusal::Refusal;
use std::fmt;

// 0 or the number of its refusal, 1 if some priority gets the CPU, and the largest that does: numbers, since C is handed them
#[repr(C)]
#[derive(Clone, Copy)]
pub struct Humblest {
    pub refusal: u64,
    pub found: u64,
    pub priority: u64,
}

const NOT_FOUND: Humblest = Humblest {
    refusal: 0,
    found: 0,
    priority: 0,
};

fn refused(refusal: Refusal) -> Humblest
    ensures { result ≡ refused (refusal_number refusal) }
{
    Humblest {
        refusal: refusal.into(),
        found: 0,
        priority: 0,
    }
}

// From the largest number down: a smaller one may fail where a larger one works. No number from b on does.
fn search(image: &[u64], copy: &mut [u64], cpu: CpuPlace, time: u64, x: usize) -> Humblest
    requires ready { Ready image.now cpu.c cpu.n cpu.k time x }
    requires copy_len { length copy.old ≡ length image.now }
    ensures { result ≡ greatest (works image.now cpu.k time x) priorities }
{
    for p in (0..40).rev() {
        if priority_trial::works(image, copy, cpu, time, x, p) {
            return Humblest {
                refusal: 0,
                found: 1,
                priority: p,
            };
        }
    }
    NOT_FOUND
}

// On an image that was checked.
fn humblest_on(image: &[u64], c: usize, n: usize, cpu: u64, time: u64, context: u64) -> Humblest
    requires { (image_refusal time image.now ≡ 0) × (c ≡ size_c image.now) × (n ≡ size_n image.now) }
    ensures { result ≡ humblest_of image.now time (candidate (decode image.now) cpu context) }
{
    match candidate::candidate(image, c, n, cpu, context) {
        Err(refusal) => refused(refusal),
        Ok((k, x)) => {
            let mut copy = [0u64; machine::MAX_IMAGE_SIZE];
            let len = image.len();
            search(image, &mut copy[0..len], CpuPlace { c, n, k }, time, x)
        }
    }
}

pub fn find(image: &[u64], cpu: u64, time: u64, context: u64) -> Humblest
    ensures { result ≡ humblest image.now cpu time context }
{
    match calls::check(image, time) {
        Err(refusal) => refused(refusal),
        Ok((c, n)) => humblest_on(image, c, n, cpu, time, context),
    }
}

// Its three numbers, a space (32) between two.
impl fmt::Display for Humblest {
    ghost output = { λ a. Some (decimal a.refusal ++ 32 ∷ decimal a.found ++ 32 ∷ decimal a.priority) };

    fn fmt<W: fmt::Write>(&self, f: &mut fmt::Formatter<W>) -> fmt::Result {
        write!(f, "{} {} {}", self.refusal, self.found, self.priority)
    }
}
