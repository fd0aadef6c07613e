// The replay program: standard input to standard output, as document 01's section "Replay" says. It reads a piece, feeds it and writes
// what was printed, before it waits for more; what is printed is decided, and proved, in the library.
#![tactic(auto)]

use replaying::Place;
use std::io;
use std::io::{Read, Write};

// Replays what is read. The output has 20 bytes for each of the input, so that every piece is taken whole. An input that fails has
// ended; nothing is printed after a first line that was refused, so nothing more is read then. Nothing says that an input ends, and a
// proved loop has to: so the turns are counted, up to a number that no run reaches.
#[tactic(auto, unfolding(replaying::specs::Pieces::printed_by, replaying::specs::Pieces::taken_values))]
fn run(from: &mut impl Read, to: &mut impl Write) -> io::Result<()> {
    let mut input = [0u8; 16384];
    let mut output = [0u8; 327680];
    let mut replay = feeding::start();
    for _ in 0..u64::MAX {
        let n = from.read(&mut input).unwrap_or(0);
        if n == 0 {
            break;
        }
        let Ok(fed) = feeding::feed(&mut replay, &input[..n], &mut output) else {
            return Ok(());
        };
        to.write_all(&output[..fed.printed])?;
        if matches!(replay.place, Place::Ended) {
            return Ok(());
        }
    }
    let ending = feeding::finish(&replay);
    let printed = ending.answer.unwrap_or(0) as usize;
    to.write_all(ending.bytes.get(..printed).unwrap_or(&[]))
}

// A closed output ends the program, and is no error of its own.
fn main(rt: HostRuntime) {
    let _ = run(&mut rt.stdin(), &mut rt.stdout());
}
