// What is common to all calls: the check of any words, which refuses them or gives the image's two sizes. The definitions of the calls stand in specs/Call.
#![tactic(auto)]

ghost use Rattle.std.specs.Prelude.{◌≡◌};
ghost use Rattle.calls.specs.Call.{check};
ghost use Rattle.refusal.specs.Number.{numbered};

use refusal::Refusal;

// The counts of an image's CPUs and contexts, or why it is refused.
pub fn check(image: &[u64], time: u64) -> Result<(usize, usize), Refusal>
    ensures { numbered result ≡ check image.now time }
{
    image::check(image, time)?;
    Ok((numbers::index(image[0]), numbers::index(image[1])))
}
