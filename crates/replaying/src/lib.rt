// Document 01's section "Replay": what a script prints, defined byte by byte in specs/, and here the text of a line of it, put into
// lent bytes. What a command does is decided above.
#![tactic(auto)]

mod lines;
mod text;

use limits::HELD_ROOM;
pub use lines::line_end;
use model::{Refusal, State};
pub use text::{put_said, put_totals};

// What a line of a script prints: nothing; a letter and a value; or that it is refused, and the number. `Nothing` is one of the three cases
// of a line, and no absence. A number, and no `Refusal`: `put_said` promises every number.
#[derive(Clone, Copy)]
pub enum Said {
    Nothing,
    Value(u8, u32),
    Refused(u32),
}

// Where a replay stands: before its first line, on a board, or ended by its first line.
#[derive(Clone, Copy)]
pub enum Place {
    Before,
    On,
    Ended,
}

// A replay between two pieces of its script: where it stands, the board, and the line that has begun, of which the first bytes tell
// enough, and how many of them are held. Off a board the state is zero throughout; the bytes after those that are held are zero. The memory
// is fixed, and a state stands beside every place: `feed` promises an answer for every value of it (Pieces.fit).
#[derive(Clone, Copy)]
pub struct Replaying {
    pub place: Place,
    pub state: State,
    pub begun: [u8; HELD_ROOM],
    pub count: usize,
}

// What became of a piece of a script: how many bytes of it were taken, and how many were printed. It is how much of what is lent, as std's
// `read` answers.
#[derive(Clone, Copy)]
pub struct Fed {
    pub taken: usize,
    pub printed: usize,
}

// The end of a script: how many bytes it prints, or a refusal; and the bytes, zeros after them. The memory is fixed, so that `finish` asks
// for no room.
#[derive(Clone, Copy)]
pub struct Ending {
    pub answer: Result<u32, Refusal>,
    pub bytes: [u8; 160],
}
