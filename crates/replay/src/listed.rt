// What a text lists: numbers, and the words of an image or a window.
use answer::Answer;
use std::{array, fmt, io};

// One more than an image or a window has: a longer one is refused by its length.
pub const MAX_IMAGE: usize = machine::MAX_IMAGE_SIZE + 1;

pub const MAX_WINDOW: usize = window::WINDOW_SIZE + 1;

// A digit, or what a case begins with that begins with none.
fn is_mark(b: u8) -> bool {
    b.is_ascii_digit() || b"#pgcdwasthro".contains(&b)
}

// What is left of a text.
#[derive(Drop)]
pub struct Numbers<'a>(&'a [u8]);

impl<'a> Numbers<'a> {
    pub fn of(text: &'a [u8]) -> Numbers<'a> {
        Numbers(text)
    }

    // What stands in front of the first byte of a kind, or all: it is passed over.
    fn pass<F: Fn(u8) -> bool>(&mut self, ends: F) -> &'a [u8]
        requires { F.IsAlwaysCallable ends }
    {
        let end = self.0.iter().position(|b| ends(*b));
        let (front, rest) = self.0.split_at(end.unwrap_or(self.0.len()));
        self.0 = rest;
        front
    }

    // The mark that the next case begins with, which stays; None behind the last.
    pub fn mark(&mut self) -> Option<u8> {
        self.pass(is_mark);
        self.0.first().copied()
    }

    // From behind the letter that a case begins with.
    pub fn behind_letter(&mut self) -> &mut Self {
        if let Some((_, rest)) = self.0.split_first() {
            self.0 = rest;
        }
        self
    }

    // Up to the end of the line.
    pub fn line(&mut self) -> &'a [u8] {
        self.pass(|b| b == b'\n')
    }

    // The next number: 0 where a letter comes first or behind the last, the greatest where it is too large.
    pub fn next(&mut self) -> u64 {
        self.pass(is_mark);
        let digits = self.pass(|b| !b.is_ascii_digit());
        digits.iter().fold(0u64, |n, b| {
            n.saturating_mul(10)
                .saturating_add(u64::from(b.saturating_sub(b'0')))
        })
    }

    // Whether a number comes before a letter or the end.
    pub fn has_next(&mut self) -> bool {
        match self.mark() {
            Some(b) => b.is_ascii_digit(),
            None => false,
        }
    }

    pub fn take<const N: usize>(&mut self) -> [u64; N] {
        array::from_fn(|_| self.next())
    }
}

// Words as they were listed, and as a call left them.
#[derive(Drop)]
pub struct Words<const N: usize> {
    length: usize,
    before: [u64; N],
    now: [u64; N],
}

impl<const N: usize> Words<N> {
    pub fn none() -> Words<N> {
        Words {
            length: 0,
            before: [0; N],
            now: [0; N],
        }
    }

    // Of a length, how many words are not 0, and these as pairs of place and value.
    pub fn read(&mut self, list: &mut Numbers) {
        self.length = numbers::index(list.next());
        for _ in 0..list.next() {
            // all that is missing is place 0 and value 0
            if !list.has_next() {
                return self.put(0, 0);
            }
            let place = numbers::index(list.next());
            let value = list.next();
            self.put(place, value);
        }
    }

    fn put(&mut self, place: usize, value: u64) {
        if place < N {
            self.before[place] = value;
            self.now[place] = value;
        }
    }

    pub fn all(&self) -> &[u64] {
        &self.now[..self.length.min(N)]
    }

    pub fn lent(&mut self) -> &mut [u64] {
        let end = self.length.min(N);
        &mut self.now[..end]
    }
}

// How many words changed, and these as pairs of place and value.
impl<const N: usize> fmt::Display for Words<N> {
    fn fmt<W: fmt::Write>(&self, f: &mut fmt::Formatter<W>) -> fmt::Result {
        let words = self.all().iter().zip(self.before.iter());
        let count = words.filter(|(now, before)| now != before).count();
        write!(f, "{count}")?;
        for (i, (now, before)) in self.all().iter().zip(self.before.iter()).enumerate() {
            if now != before {
                write!(f, " {i} {now}")?;
            }
        }
        Ok(())
    }
}

pub fn print_answer<const N: usize>(
    rt: &impl Print,
    a: Answer,
    words: &Words<N>,
) -> io::Result<()> {
    println!(rt;
        "{} {} {} {} {words}",
        a.refusal, a.result, a.interrupt, a.rule
    )
}
