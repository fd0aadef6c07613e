// The end of a script: the last line, if it lacks its line feed, and the last line of output.
ghost use Rattle.std.specs.Prelude.{◌≡◌, ◌+◌, ◌≤◌, length};
ghost use Rattle.std.proofs.Math.Bool.{So};
ghost use Rattle.model.specs.Calls.{totals, values_of};
ghost use Rattle.replaying.specs.Replay.{totals_line, closing, last_in, finished};
ghost use Rattle.replaying.specs.Text.{Written};
ghost use Rattle.obeying.specs.Obey.{SoundAt};
ghost use Rattle.replaying.specs.Pieces.{stand_of, shown, fit, ending_of, finishing};

use crate::pieces::{feed_part, is_fit};
use leaves::checks::number_of;
use model::Refusal;
use replaying::{Ending, Place, Replaying, Said, put_said, put_totals};
use steps::Board;

// The totals of a board, as the last line gives them.
fn put_board(board: &Board, output: &mut [u8], at: usize) -> usize
    requires { at + 128 ≤ length output.old }
    ensures { Written output.old output.new at result (totals_line (values_of totals board.now.state)) }
{
    let totals = board.totals();
    put_totals(
        u64::from(totals.clock),
        u64::from(totals.claims),
        totals.waited,
        totals.ages,
        output,
        at,
    )
}

// The last line of output, by where the replay stands: a `match` over the three places. `Said` takes the refusal's number.
fn put_closing(replay: &Replaying, output: &mut [u8], at: usize) -> usize
    requires { (at + 128 ≤ length output.old) × SoundAt (stand_of replay.now.place replay.now.state) }
    ensures { Written output.old output.new at result (closing (stand_of replay.now.place replay.now.state)) }
{
    match replay.place {
        Place::Before => put_said(Said::Refused(number_of(Refusal::Unreadable)), output, at),
        Place::On => {
            let board = Board {
                state: replay.state,
            };
            put_board(&board, output, at)
        }
        Place::Ended => at,
    }
}

// What is printed at the end of the script of a replay that can go on.
fn put_ending(replay: &Replaying, output: &mut [u8]) -> usize
    requires { So (fit replay.now) × (160 ≤ length output.old) }
    ensures { Written output.old output.new 0 result (finished (last_in (shown replay.now).begun (shown replay.now))) }
{
    if replay.count == 0 {
        return put_closing(replay, output, 0);
    }
    let part = feed_part(replay, b"\n", output);
    put_closing(&part.replay, output, part.written)
}

// Ends a script. Returns how many bytes are printed then, and the bytes: the answer to a last line that lacks its line feed, and the
// last line of output; or refusal 2 and no bytes for a replay that cannot go on.
pub fn finish(replay: &Replaying) -> Ending
    ensures { ending_of result ≡ finishing replay.now }
{
    let mut bytes = [0; 160];
    if !is_fit(replay) {
        return Ending {
            answer: Err(Refusal::NotSound),
            bytes,
        };
    }
    let printed = put_ending(replay, &mut bytes);
    Ending {
        answer: Ok(printed as u32),
        bytes,
    }
}
