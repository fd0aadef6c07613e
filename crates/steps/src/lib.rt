// The steps in place: they change the state that is lent, and know no refusals; and the calls on a state that is known to be sound. An
// inner crate: a step asks for what a sound state gives, and only crates that carry one list it.
#![tactic(auto)]

pub mod access;
mod board;
mod claims;
pub mod requests;

pub use board::Board;
