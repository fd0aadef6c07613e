// Whether a state is sound: each clause of the definition, computed on any contents. Nothing rolls over. The tests on a source are joined
// by `&`, and no source ends the fold over them: with no branch the compiler tests several sources at a time. `&&` or `all` there took
// twice the instructions. What is asked of n and b has just been tested by `within_limits`.
ghost use Rattle.std.specs.Prelude.{◌≡◌, ◌-◌, ◌*◌, ◌^◌, ◌≤◌, ◌<◌, Bool, ◌&&◌, leb, eqb, get_or};
ghost use Rattle.limits.specs.Limits.{source_room, last_source, context_room, word_room, bucket_room, most_bits};
ghost use Rattle.laws.specs.Fold.{sum_to, all_to};
ghost use Rattle.model.specs.Board.{within_limits, kind_of, priority, request, enable_word};
ghost use Rattle.model.specs.Waits.{source_claims, source_waited, board_claims, board_waited, bucket_claims, bucket_ticks};
ghost use Rattle.model.specs.Registers.{kept};
ghost use Rattle.model.specs.Sound.{typed, all_zero, sound_source_at, sound_context, sound};

use leaves::stages::request_of;
use leaves::totals::total;
use leaves::waits::open_age;
use leaves::words::{kept_bits, power};
use limits::{
    BUCKET_ROOM, CONTEXT_ROOM, LAST_SOURCE, MOST_BITS, MOST_CONTEXTS, MOST_EDGES, SOURCE_ROOM,
    WORD_ROOM,
};
use model::{Kind, Settings, Stage, State};

// Whether everything that a state holds of source i is zero.
fn is_zero_at(state: &State, i: usize) -> bool
    requires { i < source_room }
    ensures { result ≡ all_zero (kind_of state.now.shape i) (priority state.now.settings i)
        (source_claims state.now.counts i) (source_waited state.now.counts i) (request state.now.requests i) }
{
    let r = request_of(&state.requests, i);
    (state.shape.kind[i] == Kind::Level as u8)
        & (state.settings.priority[i] == 0)
        & (r.stage == Stage::Idle as u8)
        & !r.line
        & (r.extra == 0)
        & (r.start == 0)
        & (state.counts.claims[i] == 0)
        & (state.counts.waited[i] == 0)
}

// The clauses on source i, and the one that the types keep: an array has its length, and clock and steps fit 32 bits.
fn is_source_sound(state: &State, i: usize) -> bool
    requires { (i < source_room) × (state.now.shape.bits ≤ most_bits) }
    ensures { result ≡ (typed state.now && sound_source_at state.now i) }
{
    let kind = state.shape.kind[i];
    let here = (1 <= i) & (i <= state.shape.sources as usize);
    let r = request_of(&state.requests, i);
    let idle = r.stage == Stage::Idle as u8;
    let age = open_age(state.clock, r);
    let waited = state.counts.waited[i];
    (kind <= Kind::Counting as u8)
        & (here | is_zero_at(state, i))
        & (state.settings.priority[i] <= highest(state.shape.bits))
        & (r.stage <= Stage::InService as u8)
        & (r.start <= state.clock)
        & ((r.stage == Stage::Pending as u8) | (r.start == 0))
        & (r.extra <= MOST_EDGES)
        & ((kind == Kind::Counting as u8) | (r.extra == 0))
        & (!idle | (r.extra == 0))
        & !((kind == Kind::Level as u8) & idle & r.line)
        & (u64::from(waited) + u64::from(age) <= u64::from(state.clock))
}

// The clauses on every source, and the one that the types keep.
fn are_sources_sound(state: &State) -> bool
    requires { state.now.shape.bits ≤ most_bits }
    ensures { result ≡ (typed state.now && all_to (sound_source_at state.now) source_room) }
{
    (0..SOURCE_ROOM).fold(true, |sound, i| sound & is_source_sound(state, i))
}

// Word w of context c's enables.
#[tactic(auto, unfolding(model::specs::Board::enable_word))]
fn enable_word(settings: &Settings, c: usize, w: usize) -> u32
    requires { (c < context_room) × (w < word_room) }
    ensures { result ≡ enable_word settings.now c w }
{
    settings.enable[c * WORD_ROOM + w]
}

// A word of enables as it would be kept, for any word.
#[tactic(auto, using(leaves::proofs::Kept::kept_none))]
fn kept_word(n: u32, w: u32, v: u32) -> u32
    requires { (n ≤ last_source) × (w < word_room) }
    ensures { result ≡ kept n w v }
{
    if w <= n / 32 { kept_bits(n, w, v) } else { 0 }
}

// Whether a context's words are zero.
fn are_words_zero(settings: &Settings, c: usize) -> bool
    requires { c < context_room }
    ensures { result ≡ all_to (λ w. eqb (enable_word settings.now c w) 0) word_room }
{
    (0..WORD_ROOM).all(|w| enable_word(settings, c, w) == 0)
}

// Whether a context's words have bits of sources alone.
fn are_words_kept(n: u32, settings: &Settings, c: usize) -> bool
    requires { (n ≤ last_source) × (c < context_room) }
    ensures { result ≡ all_to (λ w. eqb (enable_word settings.now c w) (kept n w (enable_word settings.now c w))) word_room }
{
    (0..WORD_ROOM).all(|w| {
        let word = enable_word(settings, c, w);
        word == kept_word(n, w as u32, word)
    })
}

// The clauses on context c.
fn is_context_sound(state: &State, c: usize) -> bool
    requires { (state.now.shape.sources ≤ last_source) × (state.now.shape.bits ≤ most_bits) × (c < context_room) }
    ensures { result ≡ sound_context state.now.shape state.now.settings c }
{
    let here = c < state.shape.contexts as usize;
    let limit = state.settings.threshold[c];
    (here | (limit == 0))
        & (here | are_words_zero(&state.settings, c))
        & (limit <= highest(state.shape.bits))
        & are_words_kept(state.shape.sources, &state.settings, c)
}

// The clauses on every context.
fn are_contexts_sound(state: &State) -> bool
    requires { (state.now.shape.sources ≤ last_source) × (state.now.shape.bits ≤ most_bits) }
    ensures { result ≡ all_to (sound_context state.now.shape state.now.settings) context_room }
{
    (0..CONTEXT_ROOM).all(|c| is_context_sound(state, c))
}

// Whether the buckets' ticks come to a total: each is taken off what is left of it, so that no sum is formed that could not fit. A loop: of
// `try_fold` no proof was found.
#[tactic(auto, using(laws::proofs::Fold::sum_more), unfolding(laws::specs::Fold::sum_to))]
fn ticks_come_to(ticks: &[u64; BUCKET_ROOM], total: u64) -> bool
    ensures { result ≡ eqb total (sum_to (λ k. get_or ticks.now k 0) bucket_room) }
{
    let mut left = total;
    for bucket in ticks {
        let Some(rest) = left.checked_sub(*bucket) else {
            return false;
        };
        left = rest;
    }
    left == 0
}

// Whether a shape's numbers are within their limits.
pub fn within_limits(n: u32, m: u32, b: u32) -> bool
    ensures { result ≡ within_limits n m b }
{
    (1 <= n) & (n <= LAST_SOURCE) & (1 <= m) & (m <= MOST_CONTEXTS) & (1 <= b) & (b <= MOST_BITS)
}

// The highest priority of b bits.
fn highest(b: u32) -> u8
    requires { b ≤ most_bits }
    ensures { result ≡ 2 ^ b - 1 }
{
    (power(b) - 1) as u8
}

// The clauses on the sums.
fn are_sums_sound(state: &State) -> bool
    ensures { result ≡ (leb (board_claims state.now.counts) state.now.steps &&
        (eqb (board_claims state.now.counts) (sum_to (bucket_claims state.now.buckets) bucket_room) &&
        eqb (board_waited state.now.counts) (sum_to (bucket_ticks state.now.buckets) bucket_room))) }
{
    let claims = total(&state.counts.claims);
    (claims <= u64::from(state.steps))
        & (claims == total(&state.buckets.claims))
        & ticks_come_to(&state.buckets.ticks, total(&state.counts.waited))
}

// Whether a state is sound, whatever it holds: true or false, and nothing is refused.
#[tactic(auto, using(crate::proofs::Joined::unsound_limits, crate::proofs::Joined::sound_parts, model::proofs::Sound::limits_facts))]
pub fn is_sound(state: &State) -> bool
    ensures { result ≡ sound state.now }
{
    let shape = &state.shape;
    within_limits(shape.sources, shape.contexts, shape.bits)
        && are_sources_sound(state)
        && are_contexts_sound(state)
        && are_sums_sound(state)
}
