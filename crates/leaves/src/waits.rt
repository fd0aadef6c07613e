// Waits, open ages and their buckets. Leaves: numbers and the table of upper ends.
ghost use Rattle.std.specs.Prelude.{◌≡◌, ℕ, ◌<◌};
ghost use Rattle.limits.specs.Limits.{bucket_room};
ghost use Rattle.model.specs.Waits.{bucket_of, upper_end, open_age};

use limits::BUCKET_ROOM;
use model::{Request, Stage};

// The upper ends of the buckets: 2^k - 1 at every k.
const UPPER_ENDS: [u32; BUCKET_ROOM] = [
    0, 1, 3, 7, 15, 31, 63, 127, 255, 511, 1023, 2047, 4095, 8191, 16383, 32767, 65535, 131071,
    262143, 524287, 1048575, 2097151, 4194303, 8388607, 16777215, 33554431, 67108863, 134217727,
    268435455, 536870911, 1073741823, 2147483647, 4294967295,
];

// The upper end of bucket k.
#[tactic(auto, unfolding(model::specs::Waits::upper_end, model::specs::Waits::upper_ends))]
pub fn upper_end(k: usize) -> u32
    requires { k < bucket_room }
    ensures { result ≡ upper_end k }
{
    UPPER_ENDS[k]
}

// The bucket of a wait: the width 32 less the wait's leading zeros, which is the machine's own count and no walk over the table.
pub fn bucket_of(wait: u32) -> usize
    ensures { (result ≡ bucket_of wait) × (result < bucket_room) }
{
    (32 - u32::leading_zeros(wait)) as usize
}

// The ticks from the step that set the pending bit to now, where it is set; 0 where it is not, as the definition.
#[tactic(auto, unfolding(model::specs::Waits::open_age, model::specs::Waits::is_pending))]
pub fn open_age(clock: u32, r: Request) -> u32
    ensures { result ≡ open_age clock r }
{
    if r.stage == Stage::Pending as u8 {
        clock.saturating_sub(r.start)
    } else {
        0
    }
}
