// What a line that is no replay line asks for. Each function here answers none where that is unreadable.
use probing::fields::{Field, field_named};
use probing::kinds::{Kinds, of_pairs};
use probing::words::{number, split_first_word};

// A board to make.
#[derive(Drop)]
pub(crate) struct Board {
    pub(crate) sources: u32,
    pub(crate) contexts: u32,
    pub(crate) bits: u32,
    pub(crate) kinds: Kinds,
}

#[derive(Drop)]
pub(crate) enum Asked {
    Make(Board),
    Mean,
    ByClaim(u32),
    ByTime(u32),
    Totals,
    Sound,
    Set(Field, usize, u64),
    Look,
}

// A number of 32 bits.
fn number_of_32(word: &[u8]) -> Option<u32> {
    u32::try_from(number(word)?).ok()
}

// `name i v`
fn set(words: &[u8]) -> Option<Asked> {
    let (name, words) = split_first_word(words)?;
    let (i, v) = split_first_word(words)?;
    let index = usize::try_from(number(i)?).ok()?;
    Some(Asked::Set(field_named(name)?, index, number(v)?))
}

// `-`, no kind bytes, and `?HEX`.
fn odd_kinds(word: &[u8]) -> Option<Kinds> {
    match word {
        b"-" => Some(Kinds::new()),
        _ => of_pairs(word.strip_prefix(b"?")?),
    }
}

// `N C b -` and `N C b ?HEX`
fn odd_board(words: &[u8]) -> Option<Board> {
    let (sources, words) = split_first_word(words)?;
    let (contexts, words) = split_first_word(words)?;
    let (bits, kinds) = split_first_word(words)?;
    Some(Board {
        sources: number_of_32(sources)?,
        contexts: number_of_32(contexts)?,
        bits: number_of_32(bits)?,
        kinds: odd_kinds(kinds)?,
    })
}

// A line of one word.
fn parse_word(word: &[u8]) -> Option<Asked> {
    match word {
        b"M" => Some(Asked::Mean),
        b"E" => Some(Asked::Totals),
        b"S" => Some(Asked::Sound),
        b"V" => Some(Asked::Look),
        _ => None,
    }
}

// What a line asks for.
pub(crate) fn parse(line: &[u8]) -> Option<Asked> {
    if limits::LINE_ROOM < line.len() {
        return None;
    }
    let Some((letter, words)) = split_first_word(line) else {
        return parse_word(line);
    };
    match letter {
        b"A" => number_of_32(words).map(Asked::ByClaim),
        b"B" => number_of_32(words).map(Asked::ByTime),
        b"F" => set(words),
        b"P" => odd_board(words).map(Asked::Make),
        _ => None,
    }
}
