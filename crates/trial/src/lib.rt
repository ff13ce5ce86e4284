// A switch for trial: on a copy of the image, or on words that the caller can put back. Nothing is saved for refusal 9, so words are copied at most once.
#![tactic(auto)]

ghost use Rattle.std.specs.Prelude.{◌≡◌, ◌<◌, ◌≤◌, length, take};
ghost use Rattle.machine.specs.Machine.{Machine};
ghost use Rattle.machine.specs.Encode.{encode, max_image_size};
ghost use Rattle.machine.specs.Shape.{Image, Fits};
ghost use Rattle.stages.specs.Stage.{Ranged};
ghost use Rattle.model.specs.Accepted.{by_switch, outcome};
ghost use Rattle.switch_ops.specs.Reply.{decide_on, decide, Attempts};
ghost use Rattle.numbers.specs.Limits.{max_number};
ghost use Rattle.trial.specs.Trial.{Tried};

use answer::Answer;
use machine::CpuPlace;
use refusal::{Refusal, refused};
use switch_ops::Decision;

// On a CPU that is present.
fn switch_on(m: &mut [u64], cpu: CpuPlace, time: u64) -> Answer
    requires image { Image cpu.c cpu.n m.old }
    requires bounded { time ≤ max_number }
    requires ranged { Ranged cpu.c cpu.n max_number max_number m.old }
    ensures { (M : Machine) → m.old ≡ encode M → Fits cpu.c cpu.n M → Attempts m.new result (decide_on m.old M cpu.k time by_switch) (outcome by_switch cpu.k time M).machine }
{
    if let Err(refusal) = admission::check_decision(m, cpu, time) {
        return refused(refusal);
    }
    switch_ops::attempt(m, cpu, time, Decision::Switch)
}

// Operation 2 on an image that was checked. Where it is refused the image may be left half-way.
pub fn switch(m: &mut [u64], c: usize, n: usize, cpu: u64, time: u64) -> Answer
    requires image { Image c n m.old }
    requires time_le_max_number { time ≤ max_number }
    requires ranged { Ranged c n max_number max_number m.old }
    ensures { (M : Machine) → m.old ≡ encode M → Fits c n M → Attempts m.new result (decide m.old M cpu time by_switch) (outcome by_switch cpu time M).machine }
{
    match machine::get_percpu_block(m, c, n, cpu) {
        Some(k) => switch_on(m, CpuPlace { c, n, k }, time),
        None => refused(Refusal::Name),
    }
}

// Operation 2 on a copy of the image, of any words. Where it is accepted the copy begins with the image that it leaves.
pub fn on_copy(image: &[u64], copy: &mut [u64], cpu: u64, time: u64) -> Answer
    requires { max_image_size ≤ length copy.old }
    ensures { Tried image.now (take (length image.now) copy.new) cpu time result }
{
    match calls::check(image, time) {
        Err(refusal) => refused(refusal),
        Ok((c, n)) => {
            let len = image.len();
            words::copy(image, copy, len);
            switch(&mut copy[0..len], c, n, cpu, time)
        }
    }
}

// Operation 2 on an image of any words. Where it is refused the image may be left half-way.
pub fn in_place(m: &mut [u64], cpu: u64, time: u64) -> Answer
    ensures { Tried m.old m.new cpu time result }
{
    match calls::check(m, time) {
        Err(refusal) => refused(refusal),
        Ok((c, n)) => switch(m, c, n, cpu, time),
    }
}
