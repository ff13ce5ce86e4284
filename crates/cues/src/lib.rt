// A cue is added to a board, or the next one looked for, in one pass over what is stored.
#![tactic(auto)]

ghost use Rattle.std.specs.Prelude.{◌≡◌, [], ◌∷◌, ◌++◌, ◌+◌, ◌<◌, ◌≤◌, length};
ghost use Rattle.columns.specs.Common.{tabulate};
ghost use Rattle.board.specs.Board.{Board, row_size, refusal_of, numbered, cue_at, put_number};
ghost use Rattle.slots.specs.Slots.{cue_of, put_cue};
ghost use Rattle.cue_line.specs.Line.{line_refusal};
ghost use Rattle.cues.specs.Add.{free_slot, added, add};
ghost use Rattle.cues.specs.Due.{next_due};

use board::Refusal;
use slots::Offer;

// A place on a board: how many cues the board holds, and the number of one.
#[derive(Clone, Copy)]
pub struct Slot {
    pub capacity: usize,
    pub index: usize,
}

// Of n stored cues and one that is offered.
fn check_offered(b: &[u8], k: usize, n: usize, q: Offer) -> Result<(), Refusal>
    requires board { Board k b.now }
    requires n_le_k { n ≤ k }
    ensures { refusal_of result ≡ line_refusal (tabulate n (cue_at k b.now) ++ (cue_of q.entry ∷ [])) }
{
    let first = numbers::word(q.first.len());
    let second = numbers::word(q.second.len());
    if !cue_line::lengths_fit(first, second) {
        return Err(Refusal::LongRow);
    }
    cue_line::check_stored(b, k, n)?;
    if !cue_line::starts_later(b, k, n, q.start) {
        return Err(Refusal::EarlyStart);
    }
    Ok(())
}

// The first free slot, for that cue.
fn free_slot(b: &[u8], q: Offer) -> Result<Slot, Refusal>
    ensures { numbered result ≡ free_slot b.now (cue_of q.entry) }
{
    let s = board::sizes_of(b)?;
    check_offered(b, s.capacity, s.stored, q)?;
    if s.stored == s.capacity {
        return Err(Refusal::FullBoard);
    }
    Ok(Slot {
        capacity: s.capacity,
        index: s.stored,
    })
}

// The slot of the cue that is due at that time, if one is.
pub fn next_due(b: &[u8], time: u64) -> Result<Option<Slot>, Refusal>
    ensures { numbered result ≡ next_due b.now time }
{
    let s = board::sizes_of(b)?;
    cue_line::check_stored(b, s.capacity, s.stored)?;
    if s.stored <= s.handed_out || time < board::start_at(b, s.capacity, s.handed_out) {
        return Ok(None);
    }
    Ok(Some(Slot {
        capacity: s.capacity,
        index: s.handed_out,
    }))
}

fn store(b: &mut [u8], s: Slot, q: Offer)
    requires board { Board s.capacity b.old }
    requires n_lt_k { (s.index < s.capacity) × (length q.first.now ≤ row_size) × (length q.second.now ≤ row_size) }
    ensures { b.new ≡ put_number (put_cue s.capacity b.old s.index (cue_of q.entry)) 8 (s.index + 1) }
{
    slots::put_cue(b, s.capacity, s.index, q);
    board::put_number(b, board::places::STORED, numbers::word(s.index + 1));
}

pub fn add(b: &mut [u8], q: Offer) -> Result<(), Refusal>
    ensures { added (refusal_of result) b.new ≡ add b.old (cue_of q.entry) }
{
    let s = free_slot(b, q)?;
    store(b, s, q);
    Ok(())
}
