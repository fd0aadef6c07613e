// A claim in the state that is lent: the winner goes into service, and its wait is booked.
ghost use Rattle.std.specs.Prelude.{◌≡◌, ◌+◌, ◌<◌, get_or};
ghost use Rattle.limits.specs.Limits.{source_room, context_room};
ghost use Rattle.model.specs.Waits.{bucket_of, counted, booked};
ghost use Rattle.model.specs.Life.{winner, claim_by};
ghost use Rattle.steps.specs.Arrays.{BookableState};

use leaves::arbiter::winner;
use leaves::stages::{put_request, request_of};
use leaves::waits::bucket_of;
use model::{Buckets, Counts, Request, Stage, State};

// A wait of w ticks is booked with source i and with its bucket.
#[tactic(auto, unfolding(model::specs::Waits::counted, model::specs::Waits::booked))]
fn book(counts: &mut Counts, buckets: &mut Buckets, i: usize, w: u32)
    requires { (i < source_room) × (get_or counts.old.claims i 0 + 1 < 4294967296) × (get_or counts.old.waited i 0 + w < 4294967296)
        × (get_or buckets.old.claims (bucket_of w) 0 + 1 < 4294967296) × (get_or buckets.old.ticks (bucket_of w) 0 + w < 18446744073709551616) }
    ensures counted { counts.new ≡ counted counts.old i w }
    ensures booked { buckets.new ≡ booked buckets.old w }
{
    let k = bucket_of(w);
    counts.claims[i] += 1;
    counts.waited[i] += w;
    buckets.claims[k] += 1;
    buckets.ticks[k] += u64::from(w);
}

// A claim by context c: the winner goes into service and its wait is booked; 0 where nothing is eligible. 0 for nobody is document 01's.
#[tactic(auto, unfolding(model::specs::Life::claim_by, model::specs::Life::claim_of, model::specs::Life::served, model::specs::Board::with_request, model::specs::Board::with_counts, model::specs::Waits::wait))]
pub(crate) fn claim(state: &mut State, c: usize) -> usize
    requires sources { state.old.shape.sources < source_room }
    requires context { c < context_room }
    requires bookable { BookableState state.old }
    ensures gives { result ≡ winner state.old c }
    ensures leaves { state.new ≡ claim_by state.old c }
    ensures within { result < source_room }
{
    let w = winner(state, c);
    if w == 0 {
        return 0;
    }
    let r = request_of(&state.requests, w);
    let wait = state.clock - r.start;
    let served = Request {
        stage: Stage::InService as u8,
        start: 0,
        ..r
    };
    put_request(&mut state.requests, w, served);
    book(&mut state.counts, &mut state.buckets, w, wait);
    w
}
