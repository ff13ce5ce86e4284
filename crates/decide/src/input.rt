// The words of an input, 64 bits each, lowest byte first.
ghost use Rattle.std.specs.Prelude.{◌≡◌, ◌+◌, ◌*◌, ◌≤◌, length};
ghost use Rattle.decide.specs.Input.{word_at, head_of, image_words, GivesOver};

use operations::Call;
use std::io::Read;

fn word(s: &[u8], i: usize) -> u64
    requires { 8 * i + 8 ≤ length s.now }
    ensures { result ≡ word_at s.now i }
{
    let at = 8 * i;
    le_bytes::from_le_bytes(&s[at..at + 8])
}

pub fn load_head(s: &[u8]) -> Call
    requires { 32 ≤ length s.now }
    ensures { result ≡ head_of s.now }
{
    Call {
        operation: word(s, 0),
        cpu: word(s, 1),
        time: word(s, 2),
        context: word(s, 3),
    }
}

// The image's words behind the head.
pub fn load_image(s: &[u8], image: &mut [u64])
    requires { 32 + 8 * length image.old ≤ length s.now }
    ensures { image.new ≡ image_words s.now (length image.old) }
{
    for (i, w) in image.iter_mut().enumerate() {
        *w = word(s, i + 4);
    }
}

// Reads on to the end: how many bytes there were, modulo 8.
pub fn read_on<R: Read>(reader: &mut R, space: &mut [u8]) -> usize
    ensures below { result ≤ 7 }
    ensures bytes { GivesOver (R.remaining reader.old) (R.remaining reader.new) result }
{
    let mut over = 0;
    // a reader may give bytes without end, so the turns are counted
    for _ in 0..u64::MAX {
        let got = reading::read_full(reader, space);
        if got == 0 {
            return over;
        }
        over = (over + got % 8) % 8;
    }
    over
}
