// The grammar of a replay line: what a line of bytes, without its line feed, asks for. Syntax only: what a command does is decided above.
#![tactic(auto)]

mod forms;
mod scan;

ghost use Rattle.std.specs.Prelude.{◌≡◌, ◌≤◌, length, IfSome};
ghost use Rattle.commands.specs.Grammar.{command_of, opening_of};
ghost use Rattle.commands.specs.Leaves.{letter_of};

use crate::forms::{WORDS, last_number, last_offset, line_of, make_of, write_of};

// A board as a `P` line asks for it: N, C, b, and the place where the letters of the kinds begin. It is a place, and not the letters, as
// the grammar gives it (Places.kind_at).
#[derive(Clone, Copy)]
pub struct Opening {
    pub sources: u32,
    pub contexts: u32,
    pub bits: u32,
    pub kinds: usize,
}

// A command, with the numbers that its line gives. `Unreadable` is a case of the grammar (Grammar.command_of), and no absence.
#[derive(Clone, Copy)]
pub enum Command {
    Make(Opening),
    Line(u32, bool),
    Advance(u32),
    Read(u32),
    Write(u32, u32),
    Notify(u32),
    Unreadable,
}

// The letter of a line, not too long, whose second byte is a space. One test of the length, before the bytes: of a slice pattern with a
// guard there are two.
fn letter_of(line: &[u8]) -> Option<u8>
    ensures letter { result ≡ letter_of line.now }
    ensures long { IfSome result (λ _. 2 ≤ length line.now) }
{
    if !(2..=limits::LINE_ROOM).contains(&line.len()) {
        return None;
    }
    (line[1] == b' ').then_some(line[0])
}

// What a line asks for. A `match`: each letter reads words of another form. Each arm makes its command: through an `Option<Command>` every
// short line took a quarter more instructions. The opening goes field by field: moved whole, it is cleared and copied for each other letter
// too.
#[tactic(auto, using(crate::proofs::Letters::told_steps))]
pub fn parse(line: &[u8]) -> Command
    ensures { result ≡ command_of line.now }
{
    match letter_of(line) {
        Some(b'L') => line_of(line, WORDS),
        Some(b'T') => last_number(line, WORDS).map_or(Command::Unreadable, Command::Advance),
        Some(b'R') => last_offset(line, WORDS).map_or(Command::Unreadable, Command::Read),
        Some(b'W') => match write_of(line, WORDS) {
            Some((offset, value)) => Command::Write(offset, value),
            None => Command::Unreadable,
        },
        Some(b'N') => last_number(line, WORDS).map_or(Command::Unreadable, Command::Notify),
        Some(b'P') => match make_of(line, WORDS) {
            Some(asked) => Command::Make(Opening {
                sources: asked.sources,
                contexts: asked.contexts,
                bits: asked.bits,
                kinds: asked.kinds,
            }),
            None => Command::Unreadable,
        },
        _ => Command::Unreadable,
    }
}

// What a script's first line asks for: only `P N C b kinds` is readable there.
#[tactic(auto, using(crate::proofs::Openings::opening_steps))]
pub fn parse_opening(line: &[u8]) -> Option<Opening>
    ensures { result ≡ opening_of (command_of line.now) }
{
    match letter_of(line)? {
        b'P' => make_of(line, WORDS),
        _ => None,
    }
}
