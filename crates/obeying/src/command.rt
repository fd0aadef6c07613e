// A command of a script on a board, in place: its step, and what it prints.
ghost use Rattle.std.specs.Prelude.{◌≡◌};
ghost use Rattle.replaying.specs.declared.Said.{Said};
ghost use Rattle.obeying.specs.Obey.{said_of, Obeyed};

use commands::Command;
use leaves::checks::number_of;
use model::Refusal;
use replaying::Said;
use steps::Board;

// What a line prints whose call gives no value: nothing, or its refusal. `Said` takes the number: `put_said` promises every one.
#[tactic(auto, unfolding(crate::specs::Obey::said_of))]
fn silent(answer: Result<u32, Refusal>) -> Said
    ensures { result ≡ said_of (λ _. Said.Nothing) answer }
{
    match answer {
        Ok(_) => Said::Nothing,
        Err(why) => Said::Refused(number_of(why)),
    }
}

// What a line prints whose call gives a value: its letter and the value, or its refusal.
#[tactic(auto, unfolding(crate::specs::Obey::said_of))]
fn valued(letter: u8, answer: Result<u32, Refusal>) -> Said
    ensures { result ≡ said_of (Said.Value letter) answer }
{
    match answer {
        Ok(value) => Said::Value(letter, value),
        Err(why) => Said::Refused(number_of(why)),
    }
}

// A command that is not the first line: a later `P` is unreadable. A `match` over the grammar's cases, as Replay.commanded.
pub fn obey(board: &mut Board, command: Command) -> Said
    ensures { Obeyed command board.old.state board.new.state result }
{
    match command {
        Command::Line(source, level) => silent(board.line(source, level)),
        Command::Advance(ticks) => silent(board.advance(ticks)),
        Command::Read(offset) => valued(b'R', board.read(offset)),
        Command::Write(offset, value) => silent(board.write(offset, value)),
        Command::Notify(context) => valued(b'N', board.notification(context)),
        Command::Make(..) | Command::Unreadable => Said::Refused(number_of(Refusal::Unreadable)),
    }
}
