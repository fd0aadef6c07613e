// Sums over all sources and over all buckets, as numbers of 64 bits. Leaves: what is lent, no state.
ghost use Rattle.std.specs.Prelude.{◌≡◌, ◌^◌, ◌≤◌, get_or};
ghost use Rattle.laws.specs.Fold.{sum_to};
ghost use Rattle.model.specs.Waits.{board_open};

use crate::stages::request_of;
use crate::waits::open_age;
use limits::SOURCE_ROOM;
use model::Requests;

// The sum of all numbers of an array.
pub fn total<const N: usize>(counts: &[u32; N]) -> u64
    requires { N ≤ 2 ^ 32 }
    ensures { result ≡ sum_to (λ i. get_or counts.now i 0) N }
{
    counts.iter().map(|count| u64::from(*count)).sum()
}

// The ages still open, of all sources together.
#[tactic(auto, unfolding(model::specs::Waits::board_open))]
pub fn open_total(clock: u32, requests: &Requests) -> u64
    ensures { result ≡ board_open clock requests.now }
{
    (0..SOURCE_ROOM)
        .map(|i| u64::from(open_age(clock, request_of(requests, i))))
        .sum()
}
