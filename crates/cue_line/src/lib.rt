// Refusals 10 and 11 of the cues that are stored, in one pass.
#![tactic(auto)]

ghost use Rattle.std.specs.Prelude.{◌≡◌, ◌&&◌, ◌||◌, ◌-◌, ◌<◌, ◌≤◌, eqb, ltb, leb};
ghost use Rattle.columns.specs.Common.{tabulate};
ghost use Rattle.board.specs.Board.{Board, row_size, cue_at, refusal_of};
ghost use Rattle.cue_line.specs.Line.{rows_fit, line_refusal};

use board::Refusal;

const MAX_ROW_LENGTH: u64 = 40;

pub fn lengths_fit(first: u64, second: u64) -> bool
    ensures { result ≡ (leb first row_size && leb second row_size) }
{
    first <= MAX_ROW_LENGTH && second <= MAX_ROW_LENGTH
}

#[tactic(auto, unfolding(crate::specs::Line::rows_fit))]
fn rows_fit(b: &[u8], k: usize, i: usize) -> bool
    requires board { Board k b.now }
    requires i_lt_k { i < k }
    ensures { result ≡ rows_fit (cue_at k b.now i) }
{
    lengths_fit(board::length_at(b, k, i, 0), board::length_at(b, k, i, 1))
}

// A long row comes before an early start, wherever they are met: a start that is not later is kept in mind.
pub fn check_stored(b: &[u8], k: usize, n: usize) -> Result<(), Refusal>
    requires board { Board k b.now }
    requires n_le_k { n ≤ k }
    ensures { refusal_of result ≡ line_refusal (tabulate n (cue_at k b.now)) }
{
    let mut rise = true;
    let mut last = 0;
    for i in 0..n {
        if !rows_fit(b, k, i) {
            return Err(Refusal::LongRow);
        }
        let start = board::start_at(b, k, i);
        rise = rise && (i == 0 || last < start);
        last = start;
    }
    if rise {
        return Ok(());
    }
    Err(Refusal::EarlyStart)
}

// Whether a cue that starts then starts later than the last of n that are stored.
pub fn starts_later(b: &[u8], k: usize, n: usize, start: u64) -> bool
    requires board { Board k b.now }
    requires n_le_k { n ≤ k }
    ensures { result ≡ (eqb n 0 || ltb (cue_at k b.now (n - 1)).start start) }
{
    n == 0 || board::start_at(b, k, n - 1) < start
}
