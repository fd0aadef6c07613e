// The choice of a claim's winner, and whether a context is notified. Leaves: the state that is lent is read, and no more. Numbers of
// sources and contexts are plain indices: a type for them would be made at each call and taken apart at each access.
ghost use Rattle.std.specs.Prelude.{◌≡◌, cond, ◌&&◌, ℕ, ◌<◌, ◌≤◌};
ghost use Rattle.limits.specs.Limits.{source_room, context_room};
ghost use Rattle.model.specs.Board.{request, priority, enabled};
ghost use Rattle.model.specs.Waits.{is_pending};
ghost use Rattle.model.specs.Life.{winner, notified};

use crate::stages::is_pending;
use crate::words::is_enabled;
use model::State;

// The priority of source i where it is pending and enabled in context c, and 0 where it is not: 0 is the definition's rank (Life.rank).
#[tactic(auto, unfolding(model::specs::Board::priority))]
fn rank_of(state: &State, c: usize, i: usize) -> u8
    requires { (c < context_room) × (i < source_room) }
    ensures { result ≡ cond (is_pending (request state.now.requests i) && enabled state.now.settings c i) (priority state.now.settings i) 0 }
{
    if is_pending(&state.requests, i) && is_enabled(&state.settings, c, i) {
        state.settings.priority[i]
    } else {
        0
    }
}

// The source that a claim by context c gives: the highest priority, then the lowest ID; 0 where nothing is eligible, and no Option:
// "None: 0" is document 01's.
pub fn winner(state: &State, c: usize) -> usize
    requires { (state.now.shape.sources < source_room) × (c < context_room) }
    ensures { result ≡ winner state.now c }
{
    let mut won = 0;
    let mut high = 0;
    for i in (0..state.shape.sources as usize).rev() {
        let source = i + 1;
        // first what fails for most sources, in a test of its own: four instructions for one that is not pending
        if is_pending(&state.requests, source) {
            let rank = rank_of(state, c, source);
            if 0 < rank && high <= rank {
                won = source;
                high = rank;
            }
        }
    }
    won
}

// Whether some pending source enabled in context c has a priority above the threshold.
pub fn is_notified(state: &State, c: usize) -> bool
    requires { (state.now.shape.sources < source_room) × (c < context_room) }
    ensures { result ≡ notified state.now c }
{
    let threshold = state.settings.threshold[c];
    // a loop, since `any` takes seven instructions for a source that is not pending, and this four
    for i in (0..state.shape.sources as usize).rev() {
        if is_pending(&state.requests, i + 1) && threshold < rank_of(state, c, i + 1) {
            return true;
        }
    }
    false
}
