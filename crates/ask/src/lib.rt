// Asking what a switch would answer and leave on its CPU, and committing to it: the switch is made if that is still so.
#![tactic(auto)]

ghost use Rattle.std.specs.Prelude.{◌≡◌, ◌≤◌};
ghost use Rattle.machine.specs.Machine.{Machine};
ghost use Rattle.machine.specs.Encode.{encode};
ghost use Rattle.machine.specs.Shape.{Image, Fits};
ghost use Rattle.stages.specs.Stage.{Ranged};
ghost use Rattle.model.specs.Accepted.{by_switch};
ghost use Rattle.context_ops.specs.Reply.{reply};
ghost use Rattle.switch_ops.specs.Reply.{decide};
ghost use Rattle.numbers.specs.Limits.{max_number};
ghost use Rattle.ask.specs.Ask.{ask, commit_by, commit};

use answer::Answer;
use asked::Asked;
use refusal::refused;

// What a switch at that time would give.
pub fn ask(image: &[u64], cpu: u64, time: u64) -> Asked
    ensures { result ≡ ask image.now cpu time }
{
    let mut copy = [0u64; machine::MAX_IMAGE_SIZE];
    let a = trial::on_copy(image, &mut copy, cpu, time);
    asked::asked_of(&copy, asked::contexts(image), cpu, a)
}

// On an image that was checked. The words are kept until the reply has been compared, and put back unless it is the same.
fn commit_on(image: &mut [u64], c: usize, n: usize, cpu: u64, time: u64, given: Asked) -> Answer
    requires image { Image c n image.old }
    requires time_le_max_number { time ≤ max_number }
    requires ranged { Ranged c n max_number max_number image.old }
    ensures { (M : Machine) → image.old ≡ encode M → Fits c n M → reply result image.new ≡ commit_by image.old n cpu given (decide image.old M cpu time by_switch) }
{
    let mut kept = [0u64; machine::MAX_IMAGE_SIZE];
    let len = image.len();
    words::copy(image, &mut kept, len);
    let a = trial::switch(image, c, n, cpu, time);
    let number = asked::commit_refusal(given, asked::asked_of(image, n, cpu, a));
    if number != 0 {
        words::copy(&kept, image, len);
        return answer::refused(number);
    }
    a
}

// Makes the switch if it gives what was given.
pub fn commit(image: &mut [u64], cpu: u64, time: u64, given: Asked) -> Answer
    ensures { reply result image.new ≡ commit image.old cpu time given }
{
    match calls::check(image, time) {
        Err(refusal) => refused(refusal),
        Ok((c, n)) => commit_on(image, c, n, cpu, time, given),
    }
}
