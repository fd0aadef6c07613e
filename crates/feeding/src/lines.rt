// The lines of a piece of a script, on a board, which lasts as long as the piece does: no command checks it again or copies it.
ghost use Rattle.std.specs.Prelude.{◌+◌, ◌*◌, ◌≤◌, length};
ghost use Rattle.replaying.specs.Pieces.{line_feeds};
ghost use Rattle.feeding.specs.Engine.{FeedsBoard};

use crate::progress::{Progress, standing};
use obeying::obey;
use replaying::{Place, line_end};
use steps::Board;

// A piece on a board, where no line has begun: all the lines that end in it, whose answers are put into the output from a place on,
// and the line that begins.
pub(crate) fn feed_lines(board: Board, input: &[u8], output: &mut [u8], from: usize) -> Progress
    requires { from + 20 * line_feeds input.now ≤ length output.old }
    ensures { FeedsBoard board.state input.now output.old output.new from result }
{
    let mut board = board;
    let mut rest = input;
    let mut written = from;
    let mut end = line_end(rest, 0);
    while end < rest.len() {
        let said = obey(&mut board, commands::parse(&rest[..end]));
        written = replaying::put_said(said, output, written);
        rest = &rest[end + 1..];
        end = line_end(rest, 0);
    }
    standing(Place::On, board.state, &[], rest, written)
}
