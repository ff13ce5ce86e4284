// The cue board as a C library exports it: each is the call of `cue_board` by that name, with its clauses.
#![tactic(auto)]

ghost use Rattle.std.specs.Prelude.{◌≡◌};
ghost use Rattle.board.specs.Board.{offered};
ghost use Rattle.cues.specs.Add.{added, add};
ghost use Rattle.cue_board.specs.Next.{asked, next};

use cue_board::Handed;

// Adds a cue of two rows behind those that are stored. 0, or the refusal.
#[unsafe(no_mangle)]
pub extern "C" fn cue_board_add(
    board: &mut [u8],
    start: u64,
    writer: u64,
    first: &[u8],
    second: &[u8],
) -> u64
    ensures { added result board.new ≡ add board.old (offered start writer first.now second.now) }
{
    cue_board::cue_board_add(board, start, writer, first, second)
}

// Hands out the earliest cue that is not handed out, if its start is at most the time, and wakes its writer.
#[unsafe(no_mangle)]
pub extern "C" fn cue_board_next(board: &mut [u8], image: &mut [u64], cpu: u64, time: u64) -> Handed
    ensures { asked result board.new image.new ≡ next board.old image.old cpu time }
{
    cue_board::cue_board_next(board, image, cpu, time)
}
