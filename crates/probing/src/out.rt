// The output: kept back until there may be no room for the next line, so that few lines cost a call of the system, and written in whole
// lines. It is kept in memory that does not grow: there is always room for a line, and no memory to run out of.
ghost use Rattle.std.specs.Prelude.{◌≡◌, [], ◌+◌, ◌≤◌, length, IfOk};
ghost use Rattle.limits.specs.Limits.{held_room};

use arrayvec::ArrayVec;
use limits::HELD_ROOM;
use std::io;
use std::io::Write;

// How much is kept back at most.
const ROOM: usize = 4096;

// Above this the longest line may not fit.
const FULL: usize = ROOM - HELD_ROOM;

// A writer, and what is kept back for it.
#[derive(Drop)]
pub struct Out<W> {
    to: W,
    kept: ArrayVec<u8, ROOM>,
}

impl<W: Write> Out<W> {
    pub fn new(to: W) -> Out<W>
        ensures { result.kept.items ≡ [] }
    {
        Out {
            to,
            kept: ArrayVec::new(),
        }
    }

    // Writes what was kept back. It is let go where that fails.
    pub fn flush(&mut self) -> io::Result<()>
        ensures { self.new.kept.items ≡ [] }
    {
        let written = self.to.write_all(self.kept.as_slice());
        self.kept.clear();
        written
    }

    // Where the next line is put, at whose end there is room for it.
    pub fn line(&mut self) -> io::Result<&mut ArrayVec<u8, ROOM>>
        ensures { IfOk result (λ kept. length kept.now.items + held_room ≤ 4096) }
    {
        if self.kept.len() > FULL {
            self.flush()?;
        }
        Ok(&mut self.kept)
    }
}
