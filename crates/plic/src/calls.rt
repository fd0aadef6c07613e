// The calls that are steps, and the notification: each checks its state once, and goes on with the board that it is.
ghost use Rattle.std.specs.Prelude.{◌≡◌, length};
ghost use Rattle.std.specs.Fn.{FnOnceReturnsAtMut};
ghost use Rattle.model.specs.Refusals.{answered};
ghost use Rattle.model.specs.Calls.{Call, line, advance, read, write, notification, values_of, respond};
ghost use Rattle.steps.specs.declared.board.Board.{Board};

use model::{Refusal, State};
use steps::Board;

// A call on the board of a state, which goes on as the call leaves it; refusal 2 where the state is not sound. Where every answer on
// that board is the answer of a call `a` of the definitions, so is this one.
#[tactic(auto, using(crate::proofs::Unsound::unsound))]
fn on_board<F: FnOnce(&mut Board) -> Result<u32, Refusal>>(
    state: &mut State,
    call: F,
) -> Result<u32, Refusal>
    requires { F.IsAlwaysCallable call }
    ensures { (a : Call) → length (values_of a state.old) ≡ 1 →
        ((b : Board) (r : _) (b' : Board) → b.state ≡ state.old → FnOnceReturnsAtMut F.FnOnce call b r b' →
        answered r b'.state ≡ respond a state.old) →
        answered result state.new ≡ respond a state.old }
{
    let mut board = Board::new(*state)?;
    let answer = call(&mut board);
    *state = board.state;
    answer
}

// Sets a source's line to a level. Returns 0, and the state is that after it; or a refusal (2, 3, 6), and the state is as it was.
#[tactic(auto, unfolding(model::specs::Calls::values_of))]
pub fn line(state: &mut State, source: u32, level: bool) -> Result<u32, Refusal>
    ensures { answered result state.new ≡ respond (line source level) state.old }
{
    on_board(state, |board| board.line(source, level))
}

// Advances the clock. Returns 0, and the state is that after it; or a refusal (2, 3, 8), and the state is as it was.
#[tactic(auto, unfolding(model::specs::Calls::values_of))]
pub fn advance(state: &mut State, ticks: u32) -> Result<u32, Refusal>
    ensures { answered result state.new ≡ respond (advance ticks) state.old }
{
    on_board(state, |board| board.advance(ticks))
}

// Reads a register; a read of a claim register claims. Returns the value, and the state is that after it; or a refusal (2, 3, 4, 5), and
// the state is as it was.
#[tactic(auto, unfolding(model::specs::Calls::values_of))]
pub fn read(state: &mut State, offset: u32) -> Result<u32, Refusal>
    ensures { answered result state.new ≡ respond (read offset) state.old }
{
    on_board(state, |board| board.read(offset))
}

// Writes a register; a write to a claim register completes. Returns 0, and the state is that after it; or a refusal (2, 3, 4, 5), and
// the state is as it was.
#[tactic(auto, unfolding(model::specs::Calls::values_of))]
pub fn write(state: &mut State, offset: u32, value: u32) -> Result<u32, Refusal>
    ensures { answered result state.new ≡ respond (write offset value) state.old }
{
    on_board(state, |board| board.write(offset, value))
}

// Whether a context is notified. Returns 1 or 0, or a refusal (2, 7).
#[tactic(auto, using(crate::proofs::Unsound::unsound), unfolding(model::specs::Calls::values_of))]
pub fn notification(state: &State, context: u32) -> Result<u32, Refusal>
    ensures { answered result state.now ≡ respond (notification context) state.now }
{
    Board::new(*state)?.notification(context)
}
