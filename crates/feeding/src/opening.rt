// The first line of a script: the board that it asks for.
ghost use Rattle.std.specs.Prelude.{◌≡◌, ◌≤◌, length, drop};
ghost use Rattle.limits.specs.Limits.{held_room};
ghost use Rattle.model.specs.Refusals.{answered};
ghost use Rattle.commands.specs.Grammar.{command_of, opening_of};
ghost use Rattle.replaying.specs.Replay.{kind_byte, kind_bytes, started, first_line};

use crate::buffer::Held;
use model::{Answered, Kind, Refusal};

// A kind's letter as its byte, as the replay's definition (Replay.kind_byte): the letters of a line that was read are kinds. The probe has
// its own, which answers none for other letters.
#[tactic(auto, unfolding(replaying::specs::Replay::kind_byte))]
fn kind_byte(letter: u8) -> u8
    ensures { result ≡ kind_byte letter }
{
    match letter {
        b'l' => Kind::Level as u8,
        b'e' => Kind::Edge as u8,
        _ => Kind::Counting as u8,
    }
}

// The kinds of a first line as bytes.
fn kind_bytes(letters: &[u8]) -> Held
    requires { length letters.now ≤ held_room }
    ensures { result.items ≡ kind_bytes letters.now }
{
    let mut kinds = Held::new();
    for letter in letters {
        kinds.push(kind_byte(*letter));
    }
    kinds
}

// The board that a first line asks for, or its refusal.
pub(crate) fn open_board(line: &[u8]) -> Answered
    requires { length line.now ≤ held_room }
    ensures { started (answered result.answer result.state) ≡ first_line (opening_of (command_of line.now)) line.now }
{
    match commands::parse_opening(line) {
        Some(asked) => {
            let kinds = kind_bytes(line.get(asked.kinds..).unwrap_or(&[]));
            plic::make(asked.sources, asked.contexts, asked.bits, kinds.as_slice())
        }
        None => Answered {
            answer: Err(Refusal::Unreadable),
            state: plic::zero(),
        },
    }
}
