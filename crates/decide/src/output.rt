// What the program prints, of a call and of an input: the five numbers that asking gives.
ghost use Rattle.std.specs.Prelude.{◌≡◌, ◌+◌, ◌*◌, ◌≤◌, length};
ghost use Rattle.decide.specs.Input.{head_of, image_words};
ghost use Rattle.decide.specs.Line.{call_line, line};
ghost use Rattle.machine.specs.Encode.{max_image_size};

use crate::input;
use asked::Asked;
use operations::Call;
use refusal::Refusal;

fn of_call(image: &mut [u64], q: Call) -> Asked
    ensures { result ≡ call_line image.old q }
{
    let n = asked::contexts(image);
    let a = ronthuyal::ronthuyal_call(image, q.operation, q.cpu, q.time, q.context);
    asked::asked_of(image, n, q.cpu, a)
}

// The image is read into the words lent, all of them.
fn of_words(s: &[u8], image: &mut [u64]) -> Asked
    requires { 32 + 8 * length image.old ≤ length s.now }
    ensures { result ≡ call_line (image_words s.now (length image.old)) (head_of s.now) }
{
    input::load_image(s, image);
    of_call(image, input::load_head(s))
}

// An image that is longer than any legal one is cut where it is still too long: its length refuses it.
pub fn of_input(s: &[u8], over: usize, image: &mut [u64]) -> Asked
    requires { (over ≤ 7) × (max_image_size + 1 ≤ length image.old) }
    ensures { result ≡ line s.now over }
{
    let len = s.len();
    if len < 32 || (len % 8 + over) % 8 != 0 {
        return asked::refused(Refusal::Size.into());
    }
    let n = (len / 8 - 4).min(machine::MAX_IMAGE_SIZE + 1);
    of_words(s, &mut image[0..n])
}
