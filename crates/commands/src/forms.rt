// The forms of a line: what the words from a place on ask for. The words after a line's letter begin at `WORDS`.
ghost use Rattle.std.specs.Prelude.{◌≡◌, ◌+◌, ◌≤◌, length, drop, option_map};
ghost use Rattle.commands.specs.declared.Command.TheVariants.{Write};
ghost use Rattle.commands.specs.Grammar.{is_number, decimal, is_offset, hex, words};
ghost use Rattle.commands.specs.Leaves.{last_word, write_of, level_of, line_of, make_of, read_as};

use crate::scan::{kinds_at, number_at, offset_at};
use crate::{Command, Opening};

// Where the words begin: after the letter and a space.
pub(crate) const WORDS: usize = 2;

// The number at a place, as the line's last word: the n of `T n`, the c of `N c`, the val of `W off val`.
#[tactic(auto, using(crate::proofs::Words::last_steps))]
pub(crate) fn last_number(line: &[u8], at: usize) -> Option<u32>
    ensures { result ≡ last_word is_number decimal (words (drop at line.now)) }
{
    number_at(line, at)?.last_of(line)
}

// The offset at a place, as the line's last word: the off of `R off`.
#[tactic(auto, using(crate::proofs::Words::last_steps))]
pub(crate) fn last_offset(line: &[u8], at: usize) -> Option<u32>
    requires { at ≤ length line.now }
    ensures { result ≡ last_word is_offset hex (words (drop at line.now)) }
{
    offset_at(line, at)?.last_of(line)
}

// `W off val`
#[tactic(auto, using(crate::proofs::Asked::write_steps))]
pub(crate) fn write_of(line: &[u8], at: usize) -> Option<(u32, u32)>
    requires { at ≤ length line.now }
    ensures { option_map (λ w. Write w.0 w.1) result ≡ write_of (words (drop at line.now)) }
{
    let offset = offset_at(line, at)?;
    let value = last_number(line, offset.end + 1)?;
    Some((offset.value, value))
}

// The v of `L s v`: one byte, the last of the line.
#[tactic(auto, using(crate::proofs::Last::level_steps))]
fn level_at(line: &[u8], at: usize) -> Option<bool>
    ensures { result ≡ level_of (words (drop at line.now)) }
{
    match line.get(at..)? {
        [b'0'] => Some(false),
        [b'1'] => Some(true),
        _ => None,
    }
}

// `L s v`. A command, and not its parts as in `write_of`: a number and a bool are packed into one word and taken apart again.
#[tactic(auto, using(crate::proofs::Asked::line_steps))]
pub(crate) fn line_of(line: &[u8], at: usize) -> Command
    ensures { result ≡ read_as (line_of (words (drop at line.now))) }
{
    let Some(source) = number_at(line, at) else {
        return Command::Unreadable;
    };
    match level_at(line, source.end + 1) {
        Some(high) => Command::Line(source.value, high),
        None => Command::Unreadable,
    }
}

// `P N C b kinds`. An `if` and no `then_some`, which takes five instructions more for each letter of the kinds.
#[tactic(auto, using(crate::proofs::Asked::make_steps))]
pub(crate) fn make_of(line: &[u8], at: usize) -> Option<Opening>
    ensures { result ≡ make_of (length line.now) (words (drop at line.now)) }
{
    let sources = number_at(line, at)?;
    let contexts = number_at(line, sources.end + 1)?;
    let bits = number_at(line, contexts.end + 1)?;
    let kinds = bits.end + 1;
    if !kinds_at(line, kinds) {
        return None;
    }
    Some(Opening {
        sources: sources.value,
        contexts: contexts.value,
        bits: bits.value,
        kinds,
    })
}
