// What a run knows of its image: that it passes the check, and how far its numbers can have grown. As long as that is in range no check is made.
ghost use Rattle.std.specs.Prelude.{◌≡◌, ◌≤◌};
ghost use Rattle.image.specs.Refusal.{size_c, size_n, image_refusal};
ghost use Rattle.numbers.specs.Limits.{max_number};
ghost use Rattle.growth.specs.Growth.{Known};
ghost use Rattle.run.specs.Knowledge.{Holds, Makes};

use answer::Answer;
use growth::Bounds;
use operations::Call;
use refusal::{Refusal, refused};

// calls that are checked without measuring where a measurement served one call only
const WAIT: u64 = 16;

// The image passes, has so many CPUs and contexts, and no number that a call can raise is over its bound.
#[derive(Clone, Copy)]
pub struct Passing {
    pub cpus: usize,
    pub contexts: usize,
    pub bounds: Bounds,
}

// What is known of the image. If nothing is, so many calls wait for the next measurement.
#[derive(Clone, Copy)]
pub enum Knowledge {
    Passes(Passing),
    Unknown { wait: u64 },
}

#[derive(Clone, Copy)]
pub struct Made {
    pub answer: Answer,
    pub knowledge: Knowledge,
}

// The image passes at every time: nothing is checked. wait: of what is known after, if nothing is.
fn on_known(image: &mut [u64], p: Passing, q: Call, wait: u64) -> Made
    requires known { Known p.cpus p.contexts p.bounds image.old }
    requires time_le_max_number { q.time ≤ max_number }
    ensures { Makes image.old image.new q result }
{
    let after = growth::call_bounds(image, p.cpus, p.contexts, q, p.bounds);
    let answer = operations::on_image(image, p.cpus, p.contexts, q);
    if growth::is_in_range(after) {
        let knowledge = Knowledge::Passes(Passing { bounds: after, ..p });
        return Made { answer, knowledge };
    }
    let knowledge = Knowledge::Unknown { wait };
    Made { answer, knowledge }
}

// The image has passed the check for this call.
fn measured(image: &mut [u64], c: usize, n: usize, q: Call) -> Made
    requires { (image_refusal q.time image.old ≡ 0) × (c ≡ size_c image.old) × (n ≡ size_n image.old) }
    ensures { Makes image.old image.new q result }
{
    let b = measure::measure(image, c, n);
    if growth::is_in_range(b) {
        let p = Passing {
            cpus: c,
            contexts: n,
            bounds: b,
        };
        return on_known(image, p, q, WAIT);
    }
    let answer = operations::on_image(image, c, n, q);
    let knowledge = Knowledge::Unknown { wait: WAIT };
    Made { answer, knowledge }
}

fn checked(image: &mut [u64], q: Call) -> Made
    ensures { Makes image.old image.new q result }
{
    match calls::check(image, q.time) {
        Err(refusal) => Made {
            answer: refused(refusal),
            knowledge: Knowledge::Unknown { wait: 0 },
        },
        Ok((c, n)) => measured(image, c, n, q),
    }
}

// Checked, and not measured.
fn unmeasured(image: &mut [u64], wait: u64, q: Call) -> Made
    ensures { Makes image.old image.new q result }
{
    let answer = operations::call(image, q);
    let knowledge = Knowledge::Unknown { wait };
    Made { answer, knowledge }
}

// Nothing of the check but refusal 3 depends on the time.
fn unchecked(image: &mut [u64], p: Passing, q: Call) -> Made
    requires { Known p.cpus p.contexts p.bounds image.old }
    ensures { Makes image.old image.new q result }
{
    if numbers::MAX_NUMBER < q.time {
        return Made {
            answer: refused(Refusal::Range),
            knowledge: Knowledge::Passes(p),
        };
    }
    on_known(image, p, q, 0)
}

pub fn make_call(image: &mut [u64], s: Knowledge, q: Call) -> Made
    requires { Holds s image.old }
    ensures { Makes image.old image.new q result }
{
    match s {
        Knowledge::Passes(p) => unchecked(image, p, q),
        Knowledge::Unknown { wait: 0 } => checked(image, q),
        Knowledge::Unknown { wait } => unmeasured(image, wait - 1, q),
    }
}
