// One source's request changed in the state that is lent: its line set, or a completion.
ghost use Rattle.std.specs.Prelude.{◌≡◌, ◌<◌};
ghost use Rattle.limits.specs.Limits.{source_room, context_room};
ghost use Rattle.model.specs.Life.{line_change, complete_by};

use leaves::life::{completed, line_changed};
use leaves::stages::{is_in_service, put_request, request_of};
use leaves::words::is_enabled;
use model::State;

// Source i's line is set to a level.
#[tactic(auto, unfolding(model::specs::Life::line_change, model::specs::Board::with_request, model::specs::Board::kind_of))]
pub fn set_line(state: &mut State, i: usize, level: bool)
    requires { i < source_room }
    ensures { state.new ≡ line_change state.old i level }
{
    let r = line_changed(
        state.shape.kind[i],
        state.clock,
        level,
        request_of(&state.requests, i),
    );
    put_request(&mut state.requests, i, r);
}

// A completion by context c with value v (all 32 bits): it takes effect, or it is ignored.
#[tactic(auto, unfolding(model::specs::Life::complete_by, model::specs::Life::takes_effect, laws::specs::Fold::all_of, model::specs::Board::is_source, model::specs::Board::with_request, model::specs::Board::kind_of))]
pub(crate) fn complete_by(state: &mut State, c: usize, v: u32)
    requires { (state.old.shape.sources < source_room) × (c < context_room) }
    ensures { state.new ≡ complete_by state.old c v }
{
    if !(1..=state.shape.sources).contains(&v) {
        return;
    }
    let i = v as usize;
    if is_enabled(&state.settings, c, i) && is_in_service(&state.requests, i) {
        let r = completed(
            state.shape.kind[i],
            state.clock,
            request_of(&state.requests, i),
        );
        put_request(&mut state.requests, i, r);
    }
}
