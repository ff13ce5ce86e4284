// Where what stands on a board of k cues.
ghost use Rattle.std.specs.Prelude.{◌≡◌, ◌≤◌};
ghost use Rattle.board.specs.Board.{max_capacity, start_place, writer_place, length_place, row_place, board_size};

pub const MAX_CAPACITY: usize = 512;

const NUMBER_SIZE: usize = 8;

pub const ROW_SIZE: usize = 40;

// three sizes stand before the cues
pub const CAPACITY: usize = 0;

pub const STORED: usize = CAPACITY + NUMBER_SIZE;

pub const HANDED_OUT: usize = STORED + NUMBER_SIZE;

pub const HEADER_SIZE: usize = HANDED_OUT + NUMBER_SIZE;

// of a cue: its two numbers, with the lengths of its two rows, with the rows
const NUMBERS_SIZE: usize = 2 * NUMBER_SIZE;

const LENGTHS_END: usize = NUMBERS_SIZE + 2;

const CUE_SIZE: usize = LENGTHS_END + 2 * ROW_SIZE;

pub fn board_size(k: usize) -> usize
    requires { k ≤ max_capacity }
    ensures { result ≡ board_size k }
{
    HEADER_SIZE + CUE_SIZE * k
}

pub fn start_place(i: usize) -> usize
    requires { i ≤ max_capacity }
    ensures { result ≡ start_place i }
{
    HEADER_SIZE + NUMBER_SIZE * i
}

pub fn writer_place(k: usize, i: usize) -> usize
    requires { (k ≤ max_capacity) × (i ≤ max_capacity) }
    ensures { result ≡ writer_place k i }
{
    HEADER_SIZE + NUMBER_SIZE * (k + i)
}

// Row r, 0 or 1, of cue i: its length, and the row itself.
pub fn length_place(k: usize, i: usize, r: usize) -> usize
    requires { (k ≤ max_capacity) × (i ≤ max_capacity) × (r ≤ 1) }
    ensures { result ≡ length_place k i r }
{
    HEADER_SIZE + NUMBERS_SIZE * k + (2 * i + r)
}

pub fn row_place(k: usize, i: usize, r: usize) -> usize
    requires { (k ≤ max_capacity) × (i ≤ max_capacity) × (r ≤ 1) }
    ensures { result ≡ row_place k i r }
{
    HEADER_SIZE + LENGTHS_END * k + ROW_SIZE * (2 * i + r)
}
