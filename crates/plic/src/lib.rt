// The controller's public face: making a state, the calls, and the reports. Each takes every value and checks soundness once; nothing
// here asks anything of its caller.
#![tactic(auto)]

mod calls;
mod making;
mod reports;

pub use calls::{advance, line, notification, read, write};
pub use leaves::checks::number_of;
pub use making::{make, zero};
pub use reports::{by_claim, by_time, mean, totals};
pub use soundness::is_sound;
