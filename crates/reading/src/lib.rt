// Bytes of an input, read until a space is full of them.
#![tactic(auto)]

ghost use Rattle.std.specs.Prelude.{◌≤◌, length, take};
ghost use Rattle.std.specs.Io.KnownBytes.{Consumes};

use std::io::Read;

// One read. Where it fails, the input has ended.
fn read_some<R: Read>(reader: &mut R, space: &mut [u8]) -> usize
    ensures within { result ≤ length space.new }
    ensures bytes { Consumes (R.remaining reader.old) (R.remaining reader.new) (take result space.new) }
{
    reader.read(space).unwrap_or(0)
}

// Reads until the space is full, the input ends or a read fails: how many bytes stand at the space's start, which are those that the reader has given.
pub fn read_full<R: Read>(reader: &mut R, space: &mut [u8]) -> usize
    ensures within { result ≤ length space.new }
    ensures bytes { Consumes (R.remaining reader.old) (R.remaining reader.new) (take result space.new) }
{
    let mut have = 0;
    // no `for`: each turn goes on by as many bytes as its read gave
    while have < space.len() {
        let got = read_some(reader, &mut space[have..]);
        if got == 0 {
            return have;
        }
        have += got;
    }
    have
}
