// What a line of the probe is made of: numbers and kind bytes, and the fields of a state by their names, set and shown; and the output
// that is kept back. A library under the program, so that both are checked in little time. Nothing here asks anything of its caller.
#![tactic(auto)]

pub mod fields;
pub mod kinds;
pub mod look;
pub mod out;
pub mod put;
pub mod values;
pub mod words;
