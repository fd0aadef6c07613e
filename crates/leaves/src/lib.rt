// The leaves of the controller: they know numbers and what they are lent, also the state, and no text. An inner crate: its functions may
// ask things of their callers, and only crates that carry a sound state list it.
#![tactic(auto)]

pub mod arbiter;
pub mod checks;
pub mod life;
pub mod registers;
pub mod stages;
pub mod totals;
pub mod waits;
pub mod words;
