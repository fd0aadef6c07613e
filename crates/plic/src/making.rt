// Making a state: a shape and its kind bytes, checked, and a fresh state of it.
ghost use Rattle.std.specs.Prelude.{◌≡◌, ◌∷◌, ◌++◌, ℕ, ◌-◌, ◌≤◌, ◌&&◌, if◌then◌else◌, leb, length, get_or, replicate};
ghost use Rattle.limits.specs.Limits.{last_source};
ghost use Rattle.laws.specs.Fold.{all_to};
ghost use Rattle.model.specs.Board.{within_limits, kinds_for, shape_of, fresh_in, zero_state};
ghost use Rattle.model.specs.Refusals.{answered};
ghost use Rattle.model.specs.Calls.{make};

use limits::{BUCKET_ROOM, CONTEXT_ROOM, ENABLE_ROOM, SOURCE_ROOM};
use model::{Answered, Buckets, Counts, Kind, Refusal, Requests, Settings, Shape, State};
use soundness::within_limits;

// A state that is zero throughout but for its shape.
#[tactic(auto, unfolding(model::specs::Board::fresh_in))]
fn fresh(shape: Shape) -> State
    ensures { result ≡ fresh_in shape }
{
    State {
        shape,
        clock: 0,
        steps: 0,
        settings: Settings {
            priority: [0; SOURCE_ROOM],
            enable: [0; ENABLE_ROOM],
            threshold: [0; CONTEXT_ROOM],
        },
        requests: Requests {
            stage: [0; SOURCE_ROOM],
            line: [false; SOURCE_ROOM],
            extra: [0; SOURCE_ROOM],
            start: [0; SOURCE_ROOM],
        },
        counts: Counts {
            claims: [0; SOURCE_ROOM],
            waited: [0; SOURCE_ROOM],
        },
        buckets: Buckets {
            claims: [0; BUCKET_ROOM],
            ticks: [0; BUCKET_ROOM],
        },
    }
}

// A state that is zero throughout: no board, and so not sound. It goes with refusal 1.
#[tactic(auto, unfolding(model::specs::Board::zero_state, model::specs::Board::zero_shape))]
pub fn zero() -> State
    ensures { result ≡ zero_state }
{
    fresh(Shape {
        sources: 0,
        contexts: 0,
        bits: 0,
        kind: [0; SOURCE_ROOM],
    })
}

// Whether every kind byte is at most 2.
fn kinds_known(kinds: &[u8]) -> bool
    ensures { result ≡ all_to (λ i. leb (get_or kinds.now i 0) 2) (length kinds.now) }
{
    kinds.iter().all(|kind| *kind <= Kind::Counting as u8)
}

// The kinds by source: byte i is that of source i + 1.
fn kinds_by_source(kinds: &[u8]) -> [u8; SOURCE_ROOM]
    requires { length kinds.now ≤ last_source }
    ensures { result ≡ 0 ∷ (kinds.now ++ replicate (last_source - length kinds.now) 0) }
{
    let mut kind = [0; SOURCE_ROOM];
    kind[1..=kinds.len()].copy_from_slice(kinds);
    kind
}

// The shape of these numbers and kind bytes, or refusal 1.
#[tactic(auto, using(model::proofs::Sound::limits_facts), unfolding(model::specs::Board::kinds_for, model::specs::Board::shape_of))]
fn shape_of(n: u32, m: u32, b: u32, kinds: &[u8]) -> Result<Shape, Refusal>
    ensures { result ≡ (if within_limits n m b && kinds_for n kinds.now then Ok (shape_of n m b kinds.now) else Err Refusal.BadShape) }
{
    if !within_limits(n, m, b) || kinds.len() != n as usize || !kinds_known(kinds) {
        return Err(Refusal::BadShape);
    }
    Ok(Shape {
        sources: n,
        contexts: m,
        bits: b,
        kind: kinds_by_source(kinds),
    })
}

// Makes a state of n sources, m contexts and b priority bits. Returns 0 and the fresh state, or refusal 1 and a state that is zero
// throughout. 0 is the value of an accepted make (Calls.make). The three numbers are the public face: a struct for them would be the
// caller's to make.
#[tactic(auto, unfolding(model::specs::Refusals::answered, model::specs::Refusals::answer_number, model::specs::Refusals::answer_values, model::specs::Refusals::first_of, model::specs::Calls::bad_shape, model::specs::Calls::make))]
pub fn make(n: u32, m: u32, b: u32, kinds: &[u8]) -> Answered
    ensures { answered result.answer result.state ≡ make n m b kinds.now }
{
    match shape_of(n, m, b, kinds) {
        Ok(shape) => Answered {
            answer: Ok(0),
            state: fresh(shape),
        },
        Err(why) => Answered {
            answer: Err(why),
            state: zero(),
        },
    }
}
