// One command of a script on a board, in place: what every batch of commands goes through. Only crates that carry a board list it.
#![tactic(auto)]

mod command;

pub use command::obey;
