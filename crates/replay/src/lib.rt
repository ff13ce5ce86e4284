// Replays calls that a text lists, a case a line: the numbers operation, CPU, time, context, the image's length, how many
// of its words are not 0, and these as pairs of place and value. A line that begins with p is the same by the plain engine;
// one with g wakes a group: CPU, time, mask, then the image as before. One that begins with w adds up a weight: CPU, then
// the image. One that begins with c commits: CPU, time, the five numbers of the reply, then the image. Printed are refusal,
// result, interrupt mark and rule, how many words the call changed, and these as pairs of place and new value. A line that
// begins with a asks: CPU, time, then the image; printed are the five numbers. One that begins with d calls in a window:
// operation, CPU, time, context, the window's length and words as an image's, then the image; the window's changed words
// follow the image's. One that begins with s adds up the time of a context in a window, for a number of contexts: that
// number, the context, then the window; with t, without the context, the time of all.
// One that begins with h looks for the humblest priority: CPU, time, context, then the image; printed are refusal, found
// and priority.
// One that begins with r plays writer against rival: CPU, time, writer, rival, rounds, then the image; printed are refusal,
// forced and choice. One that begins with o looks at two CPUs: these, then the image. A line that begins with # is printed
// as it is.
#![tactic(auto)]

mod case;
mod listed;
mod read_only;

ghost use Rattle.std.specs.Prelude.{◌≡◌, ◌+◌, ◌≤◌, length, IfOk};

use std::io;
use std::io::Read;

// As long a line and its end may be.
const SPACE: usize = 65536;

// Behind the last line end.
fn lines_end(text: &[u8]) -> usize
    ensures { result ≤ length text.now }
{
    match text.iter().rposition(|b| *b == b'\n') {
        Some(i) => i + 1,
        None => 0,
    }
}

// Reads behind the first `have` bytes: how many were read.
fn read_behind<R: Read>(reader: &mut R, text: &mut [u8], have: usize) -> usize
    requires { have ≤ length text.old }
    ensures { have + result ≤ length text.new }
{
    reading::read_full(reader, &mut text[have..])
}

// Replays the whole lines of the first `have` bytes, and moves what is behind them to the front: how many bytes that is.
fn take_lines(rt: &impl Print, text: &mut [u8], have: usize) -> io::Result<usize>
    requires { have ≤ length text.old }
    ensures len { length text.new ≡ length text.old }
    ensures left { IfOk result (λ left. left ≤ length text.new) }
{
    let end = lines_end(&text[..have]);
    case::replay(rt, &text[..end])?;
    text.copy_within(end..have, 0);
    Ok(have - end)
}

fn run_in<R: Read>(rt: &impl Print, reader: &mut R, text: &mut [u8]) -> io::Result<()> {
    let mut have = 0;
    for _ in 0..u64::MAX {
        let got = read_behind(reader, text, have);
        if got == 0 {
            return Ok(());
        }
        have = take_lines(rt, text, have + got)?;
    }
    Ok(())
}

// Replays the cases that standard input lists, each on a line of its own of at most 65,535 bytes.
pub fn run(rt: &(impl Input + Print)) -> io::Result<()> {
    let mut text = [0u8; SPACE];
    run_in(rt, &mut rt.reader(), &mut text)
}
