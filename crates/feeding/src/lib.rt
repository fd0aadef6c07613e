// Feeding a replay: a batch over the steps. A piece of a script is obeyed on a board; soundness is checked once for a piece, and no
// command copies the state. Nothing public here asks anything of its caller.
#![tactic(auto)]

mod buffer;
mod ending;
mod lines;
mod opening;
mod pieces;
mod progress;

pub use ending::finish;
pub use pieces::{feed, start};
