// Feeding a replay: a piece of a script, as lent bytes, taken to the replay that is held, and what it prints put into lent bytes. Both
// are lent by the caller of `feed`, and the bounds here are of these two slices.
ghost use Rattle.std.specs.Prelude.{◌≡◌, [], ◌*◌, ◌≤◌, length};
ghost use Rattle.std.proofs.Math.Bool.{So};
ghost use Rattle.replaying.specs.Replay.{before, on};
ghost use Rattle.replaying.specs.Pieces.{line_length, begun_at, shown, paused, fit, printed_by, fed_of, feeding};
ghost use Rattle.feeding.specs.Engine.{Feeds};

use crate::buffer::{joined, with_line_feed};
use crate::lines::feed_lines;
use crate::opening::open_board;
use crate::progress::{Progress, at_end, off_board, standing};
use leaves::checks::number_of;
use limits::HELD_ROOM;
use model::Refusal;
use replaying::{Fed, Place, Replaying, Said, line_end, put_said};
use soundness::is_sound;
use steps::Board;

// A piece on a board, after the bytes of the line that has begun.
fn feed_board(board: Board, begun: &[u8], input: &[u8], output: &mut [u8]) -> Progress
    requires { (line_length begun.now ≡ length begun.now) × (20 * length input.now ≤ length output.old) }
    ensures { Feeds (begun_at (on board.state) begun.now) input.now output.old output.new 0 result }
{
    if begun.is_empty() {
        return feed_lines(board, input, output, 0);
    }
    let end = line_end(input, 0);
    if end == input.len() {
        return standing(Place::On, board.state, begun, input, 0);
    }
    let line = with_line_feed(begun, &input[..end]);
    let first = feed_lines(board, line.as_slice(), output, 0);
    let board = Board {
        state: first.replay.state,
    };
    feed_lines(board, &input[end + 1..], output, first.written)
}

// A piece before the end of the first line. `Said` takes the refusal's number: `put_said` promises every one.
fn feed_first(begun: &[u8], input: &[u8], output: &mut [u8]) -> Progress
    requires { 20 * length input.now ≤ length output.old }
    ensures { Feeds (begun_at before begun.now) input.now output.old output.new 0 result }
{
    let end = line_end(input, 0);
    if end == input.len() {
        return standing(Place::Before, plic::zero(), begun, input, 0);
    }
    let line = joined(begun, &input[..end]);
    let made = open_board(line.as_slice());
    match made.answer {
        Ok(_) => {
            let board = Board { state: made.state };
            feed_lines(board, &input[end + 1..], output, 0)
        }
        Err(why) => at_end(put_said(Said::Refused(number_of(why)), output, 0)),
    }
}

// A piece, wherever its replay stands: a `match` over the three places.
pub(crate) fn feed_part(replay: &Replaying, input: &[u8], output: &mut [u8]) -> Progress
    requires { So (fit replay.now) × (20 * length input.now ≤ length output.old) }
    ensures { Feeds (shown replay.now) input.now output.old output.new 0 result }
{
    let begun = &replay.begun[..replay.count];
    match replay.place {
        Place::Before => feed_first(begun, input, output),
        Place::On => {
            let board = Board {
                state: replay.state,
            };
            feed_board(board, begun, input, output)
        }
        Place::Ended => at_end(0),
    }
}

// Whether a replay can go on.
#[tactic(auto, unfolding(replaying::specs::Pieces::fit, replaying::specs::Pieces::board_sound, laws::specs::Fold::all_of))]
pub(crate) fn is_fit(replay: &Replaying) -> bool
    ensures { result ≡ fit replay.now }
{
    if HELD_ROOM < replay.count {
        return false;
    }
    if line_end(&replay.begun[..replay.count], 0) != replay.count {
        return false;
    }
    match replay.place {
        Place::Before | Place::Ended => true,
        Place::On => is_sound(&replay.state),
    }
}

// A replay before its first line.
#[tactic(auto, unfolding(replaying::specs::Pieces::paused))]
pub fn start() -> Replaying
    ensures { result ≡ paused before [] }
{
    off_board(Place::Before)
}

// Takes a piece of a script to a replay. Returns how many bytes were taken, as many as the output surely has room for at 20 bytes
// each, and how many were printed, which stand at the start of the output and fit there; or refusal 2 for a replay that cannot go on,
// which is then left as it was.
pub fn feed(replay: &mut Replaying, input: &[u8], output: &mut [u8]) -> Result<Fed, Refusal>
    ensures { (fed_of result replay.new output.new ≡ feeding replay.old input.now output.old) × (printed_by result ≤ length output.old) }
{
    if !is_fit(replay) {
        return Err(Refusal::NotSound);
    }
    let taken = input.len().min(output.len() / 20);
    let part = feed_part(replay, &input[..taken], output);
    *replay = part.replay;
    Ok(Fed {
        taken,
        printed: part.written,
    })
}
