// The reports: the mean's two numbers, the percentiles by claim and by time, and the totals. They leave the state as it is.
ghost use Rattle.std.specs.Prelude.{◌≡◌, ℕ, ◌+◌, ◌*◌, ◌^◌, ◌≤◌, ◌<◌, get_or};
ghost use Rattle.limits.specs.Limits.{bucket_room};
ghost use Rattle.laws.specs.Fold.{sum_to};
ghost use Rattle.model.specs.Waits.{percentile};
ghost use Rattle.model.specs.Refusals.{answered, averaged, totalled};
ghost use Rattle.model.specs.Calls.{mean, by_claim, by_time, totals, respond};

use leaves::checks::percentile_check;
use leaves::totals::total;
use leaves::waits::upper_end;
use limits::{BUCKET_ROOM, LAST_BUCKET};
use model::{Mean, Refusal, State, Totals};
use steps::Board;

// The mean as its two whole numbers. Returns ticks waited and claims of the whole board, or a refusal (2, 10).
#[tactic(auto, using(crate::proofs::Unsound::mean_unsound, crate::proofs::Reported::mean_refused, crate::proofs::Reported::mean_gives, steps::proofs::Bookings::claims_fit), unfolding(model::specs::Waits::board_claims, model::specs::Waits::board_waited, model::specs::Waits::source_claims, model::specs::Waits::source_waited))]
pub fn mean(state: &State) -> Result<Mean, Refusal>
    ensures { averaged result state.now ≡ respond mean state.now }
{
    let board = Board::new(*state)?;
    let claims = total(&board.state.counts.claims);
    if claims == 0 {
        return Err(Refusal::NothingToDivide);
    }
    Ok(Mean {
        ticks: total(&board.state.counts.waited),
        claims: claims as u32,
    })
}

// The upper end of the lowest bucket in which counts, in it and below, times 1000, reach p times all of them.
#[tactic(auto, using(laws::proofs::Fold::sum_more, laws::proofs::Fold::sum_mono), unfolding(laws::specs::Fold::sum_to))]
fn percentile_of(counts: &[u64; BUCKET_ROOM], p: u32, all: u64) -> u32
    requires most { p ≤ 1000 }
    requires whole { all ≡ sum_to (λ k. get_or counts.now k 0) bucket_room }
    requires fits { all * 1000 < 2 ^ 64 }
    ensures { result ≡ percentile (λ k. get_or counts.now k 0) p }
{
    let goal = u64::from(p) * all;
    let mut below = 0;
    for k in 0..LAST_BUCKET {
        below += counts[k];
        if goal <= below * 1000 {
            return upper_end(k);
        }
    }
    upper_end(LAST_BUCKET)
}

// The buckets' claims as numbers of 64 bits. It is a loop, since the array's `map` takes some 900 instructions more (measured).
fn widened(counts: &[u32; BUCKET_ROOM]) -> [u64; BUCKET_ROOM]
    ensures { result ≡ counts.now }
{
    let mut wider = [0; BUCKET_ROOM];
    for k in 0..BUCKET_ROOM {
        wider[k] = u64::from(counts[k]);
    }
    wider
}

// The percentile by claim. Returns the upper end of a bucket, or a refusal (2, 9, 10). `by_time` is its twin: what both share is
// `percentile_of`.
#[tactic(auto, using(crate::proofs::Unsound::unsound, crate::proofs::Reported::claim_refused, crate::proofs::Reported::claim_gives, steps::proofs::Bookings::claims_fit, leaves::proofs::Passed::percentile_passed), unfolding(model::specs::Calls::values_of, model::specs::Refusals::answer_number, model::specs::Waits::board_claims, model::specs::Waits::source_claims, model::specs::Waits::bucket_claims))]
pub fn by_claim(state: &State, per_mille: u32) -> Result<u32, Refusal>
    ensures { answered result state.now ≡ respond (by_claim per_mille) state.now }
{
    let board = Board::new(*state)?;
    let claims = total(&board.state.counts.claims);
    percentile_check(per_mille, claims)?;
    Ok(percentile_of(&widened(&board.state.buckets.claims), per_mille, claims))
}

// The percentile by time waited. Returns the upper end of a bucket, or a refusal (2, 9, 10).
#[tactic(auto, using(crate::proofs::Unsound::unsound, crate::proofs::Reported::time_refused, crate::proofs::Reported::time_gives, steps::proofs::Bookings::waited_fit, leaves::proofs::Passed::percentile_passed), unfolding(model::specs::Calls::values_of, model::specs::Refusals::answer_number, model::specs::Waits::board_waited, model::specs::Waits::source_waited, model::specs::Waits::bucket_ticks))]
pub fn by_time(state: &State, per_mille: u32) -> Result<u32, Refusal>
    ensures { answered result state.now ≡ respond (by_time per_mille) state.now }
{
    let board = Board::new(*state)?;
    let waited = total(&board.state.counts.waited);
    percentile_check(per_mille, waited)?;
    Ok(percentile_of(&board.state.buckets.ticks, per_mille, waited))
}

// The totals that stand at the end of a replay. Returns clock, claims, ticks waited by claims and ages still open, or refusal 2.
#[tactic(auto, using(crate::proofs::Unsound::totals_unsound, crate::proofs::Reported::totals_gives))]
pub fn totals(state: &State) -> Result<Totals, Refusal>
    ensures { totalled result state.now ≡ respond totals state.now }
{
    Ok(Board::new(*state)?.totals())
}
