// A read or a write of a register of the map, in the state that is lent. A `match`, case by case as the definitions. Each asks for
// what its cases need and no more: `Board` has that from its sound state, from the step left, and from `register_at`.
ghost use Rattle.std.specs.Prelude.{◌≡◌, ◌≤◌};
ghost use Rattle.limits.specs.Limits.{last_source, most_bits};
ghost use Rattle.model.specs.Registers.{read_of, after_read, after_write};
ghost use Rattle.leaves.specs.Leaves.{Within};
ghost use Rattle.steps.specs.Arrays.{BookableState};

use crate::claims::claim;
use crate::requests::complete_by;
use leaves::stages::pending_word;
use leaves::words::{kept_bits, reduced};
use limits::WORD_ROOM;
use model::{Register, State};

// What a read of a register gives; a read of a claim register claims.
#[tactic(auto, unfolding(model::specs::Registers::read_of, model::specs::Registers::after_read, model::specs::Registers::pending_word, model::specs::Board::priority, model::specs::Board::enable_word, model::specs::Board::threshold))]
pub fn read(state: &mut State, register: Register) -> u32
    requires sources { state.old.shape.sources ≤ last_source }
    requires within { Within state.old.shape.sources register }
    requires bookable { BookableState state.old }
    ensures gives { result ≡ read_of state.old register }
    ensures leaves { state.new ≡ after_read state.old register }
{
    match register {
        Register::Priority(s) => u32::from(state.settings.priority[s]),
        Register::Pending(w) => pending_word(&state.requests, w),
        Register::Enable(c, w) => state.settings.enable[c * WORD_ROOM + w],
        Register::Threshold(c) => u32::from(state.settings.threshold[c]),
        Register::Claim(c) => claim(state, c) as u32,
        Register::Nothing => 0,
    }
}

// What a write to a register does; a write to a claim register completes.
#[tactic(auto, unfolding(model::specs::Registers::after_write, model::specs::Registers::with_priority, model::specs::Registers::with_enable, model::specs::Registers::with_threshold, model::specs::Board::with_settings))]
pub fn write(state: &mut State, register: Register, v: u32)
    requires sources { state.old.shape.sources ≤ last_source }
    requires bits { state.old.shape.bits ≤ most_bits }
    requires within { Within state.old.shape.sources register }
    ensures { state.new ≡ after_write state.old register v }
{
    match register {
        Register::Priority(s) => state.settings.priority[s] = reduced(v, state.shape.bits),
        Register::Enable(c, w) => {
            state.settings.enable[c * WORD_ROOM + w] = kept_bits(state.shape.sources, w as u32, v);
        }
        Register::Threshold(c) => state.settings.threshold[c] = reduced(v, state.shape.bits),
        Register::Claim(c) => complete_by(state, c, v),
        Register::Pending(_) | Register::Nothing => {}
    }
}
