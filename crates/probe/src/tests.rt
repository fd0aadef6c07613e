// Tests of what no clause says: when an input has ended, and when and in what parts the output is written.
use crate::lines::obey_lines;
use probing::out::Out;
use std::io;
use std::io::{Read, Write};

// An input that gives a line without its line feed, then nothing, and then more if it is asked again.
#[derive(Drop)]
struct Resumed {
    turn: u8,
}

impl Read for Resumed {
    fn read(&mut self, buf: &mut [u8]) -> io::Result<usize> {
        let text = match self.turn {
            0 => b"S".as_slice(),
            1 => &[],
            _ => b"\nS\n",
        };
        self.turn = self.turn.saturating_add(1);
        let count = text.len().min(buf.len());
        buf[..count].copy_from_slice(&text[..count]);
        Ok(count)
    }
}

// What was written: how often, how many bytes at first and in all, and whether each part ended with a line feed.
#[derive(Drop)]
struct Parts {
    count: usize,
    first: usize,
    bytes: usize,
    are_whole: bool,
}

impl Write for &mut Parts {
    fn write(&mut self, buf: &[u8]) -> io::Result<usize> {
        if self.count == 0 {
            self.first = buf.len();
        }
        self.count = self.count.saturating_add(1);
        self.bytes = self.bytes.saturating_add(buf.len());
        self.are_whole = self.are_whole && buf.ends_with(b"\n");
        Ok(buf.len())
    }

    fn flush(&mut self) -> io::Result<()> {
        Ok(())
    }
}

// What is written of an input.
fn written<R: Read>(input: &mut R) -> Parts {
    let mut parts = Parts {
        count: 0,
        first: 0,
        bytes: 0,
        are_whole: true,
    };
    let _ = obey_lines(input, &mut Out::new(&mut parts));
    parts
}

#[test]
fn an_input_that_gave_nothing_is_not_read_again(rt: HostRuntime) {
    let parts = written(&mut Resumed { turn: 0 });
    assert_eq!(rt; parts.bytes, 4);
}

// 962 answers of four bytes: after 961 of them there may be no room for another line.
#[test]
fn what_is_kept_back_is_written_in_whole_lines(rt: HostRuntime) {
    let lines = [[b'S', b'\n']; 962];
    let parts = written(&mut lines.as_flattened());
    assert_eq!(rt; parts.count, 2);
    assert_eq!(rt; parts.first, 3844);
    assert_eq!(rt; parts.bytes, 3848);
    assert!(rt; parts.are_whole);
}
