// The lines of the input, each read and obeyed on the state at hand. In memory that does not grow.
use crate::obey::obey;
use arrayvec::ArrayVec;
use limits::HELD_ROOM;
use model::State;
use probing::out::Out;
use std::io;
use std::io::{Read, Write};

// The state at hand, and what has been read of a line.
#[derive(Drop)]
struct Reader {
    state: State,
    line: ArrayVec<u8, HELD_ROOM>,
}

impl Reader {
    // A part of a line is read. Of a line that is too long one byte too many is held, which says that it is; the rest is dropped.
    fn hold(&mut self, part: &[u8]) {
        let n = part.len().min(self.line.remaining_capacity());
        let _ = self.line.try_extend_from_slice(&part[..n]);
    }

    // The line is whole: it is obeyed, and the next one begins. Room is made first, also where the line prints nothing, so that what is
    // kept back does not wait for the next line that prints.
    fn obey<W: Write>(&mut self, output: &mut Out<W>) -> io::Result<()> {
        output.line()?;
        obey(output, &mut self.state, self.line.as_slice())?;
        self.line.clear();
        Ok(())
    }

    // A block of the input is read: each line feed in it ends a line.
    fn obey_block<W: Write>(&mut self, output: &mut Out<W>, block: &[u8]) -> io::Result<()> {
        for part in block.split_inclusive(|byte| *byte == b'\n') {
            match part.strip_suffix(b"\n") {
                Some(end) => {
                    self.hold(end);
                    self.obey(output)?;
                }
                None => self.hold(part),
            }
        }
        Ok(())
    }
}

// An input that fails has ended, and so has one that gives nothing: it is not read again. Of the last line, which may lack its line feed,
// what was read is obeyed. Nothing says that an input ends, and a proved loop has to: so the turns are counted, up to a number that no run
// reaches.
pub(crate) fn obey_lines<R: Read, W: Write>(input: &mut R, output: &mut Out<W>) -> io::Result<()> {
    let mut reader = Reader {
        state: plic::zero(),
        line: ArrayVec::new(),
    };
    for _ in 0..u64::MAX {
        let mut block = [0; 4096];
        let n = input.read(&mut block).unwrap_or(0);
        if n == 0 {
            break;
        }
        reader.obey_block(output, &block[..n])?;
    }
    if !reader.line.is_empty() {
        reader.obey(output)?;
    }
    output.flush()
}
