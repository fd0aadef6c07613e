// Obeying a line: the call that it asks for is made on the state at hand, and what it answered is printed.
use crate::asked::{Asked, Board, parse};
use crate::reply::{mean, silent, sound, totals, unreadable, value};
use commands::{Command, Opening};
use model::State;
use probing::kinds::of_letters;
use probing::look::look;
use probing::out::Out;
use probing::put::put_fitting;
use std::io;
use std::io::Write;

// A refused make leaves the state at hand zero throughout.
fn make<W: Write>(to: &mut Out<W>, state: &mut State, board: &Board) -> io::Result<()> {
    let made = plic::make(
        board.sources,
        board.contexts,
        board.bits,
        board.kinds.as_slice(),
    );
    *state = made.state;
    silent(to, made.answer)
}

// The board of a replay's `P`, whose kinds are letters.
fn board_of(opening: Opening, line: &[u8]) -> Option<Board> {
    Some(Board {
        sources: opening.sources,
        contexts: opening.contexts,
        bits: opening.bits,
        kinds: of_letters(line.get(opening.kinds..)?),
    })
}

fn make_opening<W: Write>(
    to: &mut Out<W>,
    state: &mut State,
    opening: Opening,
    line: &[u8],
) -> io::Result<()> {
    match board_of(opening, line) {
        Some(board) => make(to, state, &board),
        None => unreadable(to),
    }
}

// A line that is no replay line. A `match` over closed cases, one line each.
fn obey_other<W: Write>(to: &mut Out<W>, state: &mut State, line: &[u8]) -> io::Result<()> {
    let Some(asked) = parse(line) else {
        return unreadable(to);
    };
    match asked {
        Asked::Make(board) => make(to, state, &board),
        Asked::Mean => mean(to, plic::mean(state)),
        Asked::ByClaim(per_mille) => value(to, "A", plic::by_claim(state, per_mille)),
        Asked::ByTime(per_mille) => value(to, "B", plic::by_time(state, per_mille)),
        Asked::Totals => totals(to, plic::totals(state)),
        Asked::Sound => sound(to, plic::is_sound(state)),
        Asked::Set(field, i, v) => match put_fitting(state, field, i, v) {
            Some(()) => Ok(()),
            None => unreadable(to),
        },
        Asked::Look => look(to, state),
    }
}

// A line without its line feed. A `match` over closed cases, one line each.
pub(crate) fn obey<W: Write>(to: &mut Out<W>, state: &mut State, line: &[u8]) -> io::Result<()> {
    match commands::parse(line) {
        Command::Make(opening) => make_opening(to, state, opening, line),
        Command::Line(source, level) => silent(to, plic::line(state, source, level)),
        Command::Advance(ticks) => silent(to, plic::advance(state, ticks)),
        Command::Read(offset) => value(to, "R", plic::read(state, offset)),
        Command::Write(offset, word) => silent(to, plic::write(state, offset, word)),
        Command::Notify(context) => value(to, "N", plic::notification(state, context)),
        Command::Unreadable => obey_other(to, state, line),
    }
}
