// A cue board of lent bytes: its sizes and the numbers of its cues.
#![tactic(auto, unfolding(crate::specs::Board::cue_at))]

pub mod places;

ghost use Rattle.std.specs.Prelude.{◌≡◌, ◌+◌, ◌<◌, ◌≤◌, length};
ghost use Rattle.board.specs.Board.{Board, number_at, put_number, length_of, refusal_number, sizes_of, cue_at};

// How many cues the board holds, how many are stored, and how many of these are handed out.
#[derive(Clone, Copy)]
pub struct Sizes {
    pub capacity: usize,
    pub stored: usize,
    pub handed_out: usize,
}

// Why a board, or a cue that is offered to it, is refused.
#[derive(Clone, Copy)]
pub enum Refusal {
    WrongSizes,
    LongRow,
    EarlyStart,
    FullBoard,
}

// The number that the C interface gives it.
impl From<Refusal> for u64 {
    ghost from_gives = { λ r n. n ≡ refusal_number r };

    fn from(r: Refusal) -> u64 {
        match r {
            Refusal::WrongSizes => 1,
            Refusal::LongRow => 10,
            Refusal::EarlyStart => 11,
            Refusal::FullBoard => 12,
        }
    }
}

pub fn number(b: &[u8], at: usize) -> u64
    requires { at + 8 ≤ length b.now }
    ensures { result ≡ number_at b.now at }
{
    let end = at + 8;
    le_bytes::from_le_bytes(&b[at..end])
}

pub fn put_number(b: &mut [u8], at: usize, x: u64)
    requires { at + 8 ≤ length b.old }
    ensures { b.new ≡ put_number b.old at x }
{
    let end = at + 8;
    le_bytes::to_le_bytes(&mut b[at..end], x);
}

// The capacity is tested before the length that it gives is worked out.
#[tactic(auto, unfolding(crate::specs::Board::sizes_of, crate::specs::Board::is_sized))]
pub fn sizes_of(b: &[u8]) -> Result<Sizes, Refusal>
    ensures { result ≡ sizes_of b.now }
{
    if b.len() < places::HEADER_SIZE {
        return Err(Refusal::WrongSizes);
    }
    let k = numbers::index(number(b, places::CAPACITY));
    if k < 1 || places::MAX_CAPACITY < k || b.len() != places::board_size(k) {
        return Err(Refusal::WrongSizes);
    }
    let n = numbers::index(number(b, places::STORED));
    let h = numbers::index(number(b, places::HANDED_OUT));
    if k < n || n < h {
        return Err(Refusal::WrongSizes);
    }
    Ok(Sizes {
        capacity: k,
        stored: n,
        handed_out: h,
    })
}

// The bytes and k stay two parameters here and above: a struct of them would be needed twice, to read and to write.
pub fn start_at(b: &[u8], k: usize, i: usize) -> u64
    requires board { Board k b.now }
    requires i_lt_k { i < k }
    ensures { result ≡ (cue_at k b.now i).start }
{
    number(b, places::start_place(i))
}

pub fn writer_at(b: &[u8], k: usize, i: usize) -> u64
    requires board { Board k b.now }
    requires i_lt_k { i < k }
    ensures { result ≡ (cue_at k b.now i).writer }
{
    number(b, places::writer_place(k, i))
}

// How many bytes of row r, 0 or 1, came in.
pub fn length_at(b: &[u8], k: usize, i: usize, r: usize) -> u64
    requires board { Board k b.now }
    requires i_lt_k { (i < k) × (r ≤ 1) }
    ensures { result ≡ length_of r (cue_at k b.now i) }
{
    u64::from(b[places::length_place(k, i, r)])
}
