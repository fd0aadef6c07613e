// Whether a state is sound, and whether a shape is within its limits. Neither asks anything of its caller.
#![tactic(auto)]

mod sound;

pub use sound::{is_sound, within_limits};
