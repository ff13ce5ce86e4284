// The cue board, of any bytes and any image: a cue is added, or the next one handed out and its writer woken.
#![tactic(auto)]

ghost use Rattle.std.specs.Prelude.{◌≡◌, ◌<◌};
ghost use Rattle.board.specs.Board.{Board, offered, cue_at};
ghost use Rattle.cues.specs.Add.{added, add};
ghost use Rattle.cue_board.specs.Next.{asked, no_cue, hand_out, next};

use board::places;
use cues::Slot;
use slots::Offer;

// What asking for the next cue answers. Numbers say whether and why not, since C reads them.
#[repr(C)]
#[derive(Clone, Copy)]
pub struct Handed {
    pub refusal: u64,
    // 1 if a cue is handed out
    pub due: u64,
    // its slot on the board
    pub cue: u64,
    pub start: u64,
    pub writer: u64,
    // how many bytes of its two rows came in
    pub first_length: u64,
    pub second_length: u64,
    // what waking its writer came to
    pub result: u64,
    pub interrupt: u64,
}

// Nothing is handed out: no cue is due, or the call is refused.
fn no_cue(refusal: u64) -> Handed
    ensures { result ≡ no_cue refusal }
{
    Handed {
        refusal,
        due: 0,
        cue: 0,
        start: 0,
        writer: 0,
        first_length: 0,
        second_length: 0,
        result: 0,
        interrupt: 0,
    }
}

// The cue in that slot, unless its writer cannot be woken.
fn hand_out(bytes: &mut [u8], image: &mut [u64], cpu: u64, time: u64, s: Slot) -> Handed
    requires board { Board s.capacity bytes.old }
    requires i_lt_k { s.index < s.capacity }
    ensures { asked result bytes.new image.new ≡ hand_out bytes.old image.old cpu time s.index (cue_at s.capacity bytes.old s.index) }
{
    let k = s.capacity;
    let i = s.index;
    let writer = board::writer_at(bytes, k, i);
    let woken = ronthuyal::ronthuyal_unblock_context(image, cpu, time, writer);
    if woken.refusal != 0 {
        return no_cue(woken.refusal);
    }
    let start = board::start_at(bytes, k, i);
    let first_length = board::length_at(bytes, k, i, 0);
    let second_length = board::length_at(bytes, k, i, 1);
    board::put_number(bytes, places::HANDED_OUT, numbers::word(i + 1));
    Handed {
        refusal: 0,
        due: 1,
        cue: numbers::word(i),
        start,
        writer,
        first_length,
        second_length,
        result: woken.result,
        interrupt: woken.interrupt,
    }
}

// Adds a cue of two rows behind those that are stored. 0, or the refusal.
pub fn cue_board_add(board: &mut [u8], start: u64, writer: u64, first: &[u8], second: &[u8]) -> u64
    ensures { added result board.new ≡ add board.old (offered start writer first.now second.now) }
{
    let offer = Offer {
        start,
        writer,
        first,
        second,
    };
    match cues::add(board, offer) {
        Ok(()) => 0,
        Err(refusal) => u64::from(refusal),
    }
}

// Hands out the earliest cue that is not handed out, if its start is at most the time, and wakes its writer.
pub fn cue_board_next(board: &mut [u8], image: &mut [u64], cpu: u64, time: u64) -> Handed
    ensures { asked result board.new image.new ≡ next board.old image.old cpu time }
{
    match cues::next_due(board, time) {
        Err(refusal) => no_cue(u64::from(refusal)),
        Ok(None) => no_cue(0),
        Ok(Some(slot)) => hand_out(board, image, cpu, time, slot),
    }
}
