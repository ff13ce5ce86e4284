// Reads an operation, a CPU, a time, a context and an image from standard input, all words of 64 bits, lowest byte first. Prints the call's
// refusal, its result and that CPU's in charge, current and V.
#![tactic(auto)]

mod input;
mod output;

ghost use Rattle.std.specs.Prelude.{◌+◌, ◌≤◌, length};
ghost use Rattle.machine.specs.Encode.{max_image_size};

use asked::Asked;
use std::io;

// How much of the input is kept: at least as many bytes as the longest image takes, with the words before it.
const SPACE: usize = 65536;

fn print(rt: &impl Print, line: Asked) -> io::Result<()> {
    println!(rt;
        "{} {} {} {} {}",
        line.refusal, line.result, line.in_charge, line.current, line.v
    )
}

fn run(
    rt: &(impl Input + Print),
    bytes: &mut [u8],
    space: &mut [u8],
    image: &mut [u64],
) -> io::Result<()>
    requires { max_image_size + 1 ≤ length image.old }
{
    let mut reader = rt.reader();
    let have = reading::read_full(&mut reader, bytes);
    let over = input::read_on(&mut reader, space);
    let line = output::of_input(&bytes[..have], over, image);
    print(rt, line)
}

fn main(rt: HostRuntime) -> io::Result<()> {
    // fixed memory: of an input of any length the first bytes are kept, the rest is only counted
    let mut bytes = [0u8; SPACE];
    let mut space = [0u8; SPACE];
    let mut image = [0u64; machine::MAX_IMAGE_SIZE + 1];
    run(&rt, &mut bytes, &mut space, &mut image)
}
