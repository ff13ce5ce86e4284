// Any operation by its number, of any words: the image is checked once, then worked on.
#![tactic(auto)]

// its own file, since rattle tells `Call` from `call` by the module
mod arguments;

ghost use Rattle.std.specs.Prelude.{◌≡◌, ◌≤◌};
ghost use Rattle.machine.specs.Machine.{Machine};
ghost use Rattle.machine.specs.Encode.{encode};
ghost use Rattle.machine.specs.Shape.{Image, Fits};
ghost use Rattle.stages.specs.Stage.{Ranged};
ghost use Rattle.numbers.specs.Limits.{max_number};
ghost use Rattle.context_ops.specs.Reply.{reply};
ghost use Rattle.calls.specs.Call.{call};
ghost use Rattle.operations.specs.Operation.{operation_reply};

use answer::Answer;
pub use arguments::Call;
use refusal::{Refusal, refused};

// On an image that passes the check, of c CPUs and n contexts.
pub fn on_image(image: &mut [u64], c: usize, n: usize, q: Call) -> Answer
    requires image { Image c n image.old }
    requires time_le_max_number { q.time ≤ max_number }
    requires ranged { Ranged c n max_number max_number image.old }
    ensures { (M : Machine) → image.old ≡ encode M → Fits c n M → reply result image.new ≡ operation_reply image.old M q.operation q.cpu q.time q.context }
{
    match q.operation {
        1 => switch_ops::tick(image, c, n, q.cpu, q.time),
        2 => switch_ops::switch(image, c, n, q.cpu, q.time),
        3 => switch_ops::direct_switch_to(image, c, n, q.cpu, q.time, q.context),
        4 => context_ops::unblock_context(image, c, n, q.cpu, q.context),
        5 => context_ops::drain_ipi_context_wakeups(image, c, n, q.cpu),
        6 => context_ops::block(image, c, n, q.cpu, q.context),
        7 => context_ops::hard_block(image, c, n, q.cpu, q.context),
        _ => refused(Refusal::Name),
    }
}

pub fn call(image: &mut [u64], q: Call) -> Answer
    ensures { reply result image.new ≡ call image.old q.operation q.cpu q.time q.context }
{
    match calls::check(image, q.time) {
        Err(refusal) => refused(refusal),
        Ok((c, n)) => on_image(image, c, n, q),
    }
}
