// How far a replay has come: what a piece of its script leaves of it.
ghost use Rattle.std.specs.Prelude.{◌≡◌, [], ◌++◌, ℕ, ◌≤◌, length, take};
ghost use Rattle.limits.specs.Limits.{held_room};
ghost use Rattle.model.specs.Board.{zero_state};
ghost use Rattle.replaying.specs.Replay.{ended};
ghost use Rattle.replaying.specs.Pieces.{padded, paused};

use crate::buffer::{joined, with_zeros};
use limits::HELD_ROOM;
use model::State;
use replaying::{Place, Replaying};

// The replay after a piece, and the place in the output, which is lent, after what it printed.
#[derive(Clone, Copy)]
pub(crate) struct Progress {
    pub(crate) replay: Replaying,
    pub(crate) written: usize,
}

// A replay that stands somewhere, with a line begun, in two parts.
#[tactic(auto, unfolding(replaying::specs::Pieces::padded))]
pub(crate) fn standing(
    place: Place,
    state: State,
    first: &[u8],
    more: &[u8],
    written: usize,
) -> Progress
    ensures { result ≡ record {
      replay = record {
        place = place;
        state = state;
        begun = padded
            (first.now ++ more.now);
        count = length (take held_room (first.now ++ more.now));
      };
      written = written;
    } }
{
    let line = joined(first, more);
    Progress {
        replay: Replaying {
            place,
            state,
            begun: with_zeros(&line),
            count: line.len(),
        },
        written,
    }
}

// A replay off a board, where no line has begun: before its first line, or ended by it.
#[tactic(auto, unfolding(replaying::specs::Pieces::padded))]
pub(crate) fn off_board(place: Place) -> Replaying
    ensures { result ≡ record { place = place; state = zero_state; begun = padded []; count = 0 } }
{
    Replaying {
        place,
        state: plic::zero(),
        begun: [0u8; HELD_ROOM],
        count: 0,
    }
}

// A replay that its first line has ended.
#[tactic(auto, unfolding(replaying::specs::Pieces::paused))]
pub(crate) fn at_end(written: usize) -> Progress
    ensures { result ≡ record { replay = paused ended []; written = written } }
{
    Progress {
        replay: off_board(Place::Ended),
        written,
    }
}
