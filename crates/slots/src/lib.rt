// A cue is put into a slot of a board.
#![tactic(auto)]

mod row;

ghost use Rattle.std.specs.Prelude.{◌≡◌, ◌<◌, ◌≤◌, length};
ghost use Rattle.board.specs.Board.{Board, row_size, padded};
ghost use Rattle.slots.specs.Slots.{put_numbers, put_lengths, put_rows, cue_of, put_cue};

use board::places;

// A cue as it is offered: when it starts, who is to be woken, and the bytes of its two rows.
#[derive(Clone, Copy)]
pub struct Offer<'a> {
    pub start: u64,
    pub writer: u64,
    pub first: &'a [u8],
    pub second: &'a [u8],
}

fn put_numbers(b: &mut [u8], k: usize, i: usize, start: u64, writer: u64)
    requires board { Board k b.old }
    requires i_lt_k { i < k }
    ensures { b.new ≡ put_numbers k b.old i start writer }
{
    board::put_number(b, places::start_place(i), start);
    board::put_number(b, places::writer_place(k, i), writer);
}

fn put_lengths(b: &mut [u8], k: usize, i: usize, first: usize, second: usize)
    requires board { Board k b.old }
    requires i_lt_k { (i < k) × (first ≤ row_size) × (second ≤ row_size) }
    ensures { b.new ≡ put_lengths k b.old i first second }
{
    let at = places::length_place(k, i, 0);
    let next = places::length_place(k, i, 1);
    b[at] = first as u8;
    b[next] = second as u8;
}

fn put_rows(b: &mut [u8], k: usize, i: usize, first: &[u8], second: &[u8])
    requires board { Board k b.old }
    requires i_lt_k { (i < k) × (length first.now ≤ row_size) × (length second.now ≤ row_size) }
    ensures { b.new ≡ put_rows k b.old i (padded first.now) (padded second.now) }
{
    row::put_row(b, places::row_place(k, i, 0), first);
    row::put_row(b, places::row_place(k, i, 1), second);
}

pub fn put_cue(b: &mut [u8], k: usize, i: usize, q: Offer)
    requires board { Board k b.old }
    requires i_lt_k { (i < k) × (length q.first.now ≤ row_size) × (length q.second.now ≤ row_size) }
    ensures { b.new ≡ put_cue k b.old i (cue_of q.entry) }
{
    put_numbers(b, k, i, q.start, q.writer);
    put_lengths(b, k, i, q.first.len(), q.second.len());
    put_rows(b, k, i, q.first, q.second);
}
