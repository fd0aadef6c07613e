// `probe`: a state at hand, one command a line, each command one public call on that state. For testing, and for looking inside.
#![tactic(auto)]

mod asked;
mod lines;
mod obey;
mod reply;
#[cfg(test)]
mod tests;

use crate::lines::obey_lines;
use probing::out::Out;

// A write that failed has closed the output: nothing more is read, and it is no error of its own.
fn main(rt: HostRuntime) {
    let _ = obey_lines(&mut rt.stdin(), &mut Out::new(rt.stdout()));
}
