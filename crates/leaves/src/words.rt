// Words of bits: a bit of a word, and what a write of enables, of a priority or of a threshold keeps.
// Leaves: numbers and the settings that are lent only.
ghost use Rattle.std.specs.Prelude.{◌≡◌, ℕ, ◌+◌, ◌*◌, ◌^◌, ◌/◌, ◌%◌, ◌<◌, ◌≤◌};
ghost use Rattle.limits.specs.Limits.{source_room, last_source, context_room, most_bits};
ghost use Rattle.laws.specs.Bits.{bit};
ghost use Rattle.model.specs.Board.{enabled};
ghost use Rattle.model.specs.Registers.{kept};

use limits::WORD_ROOM;
use model::Settings;

// 2 to the power j.
pub fn power(j: u32) -> u64
    requires { j < 33 }
    ensures { result ≡ 2 ^ j }
{
    1u64 << j
}

// Bit j of a word.
#[tactic(auto, unfolding(laws::specs::Bits::bit))]
pub fn bit_of(word: u32, j: u32) -> bool
    requires { j < 32 }
    ensures { result ≡ bit word j }
{
    (word >> j) % 2 == 1
}

// Whether source i is enabled in context c.
#[tactic(auto, unfolding(model::specs::Board::enabled, model::specs::Board::enable_word))]
pub fn is_enabled(settings: &Settings, c: usize, i: usize) -> bool
    requires { (c < context_room) × (i < source_room) }
    ensures { result ≡ enabled settings.now c i }
{
    let word = settings.enable[c * WORD_ROOM + i / 32];
    bit_of(word, (i % 32) as u32)
}

// The lowest bits of a word.
fn low_bits(v: u32, room: u32) -> u32
    ensures { result ≡ v % 2 ^ room }
{
    if room < 32 {
        (u64::from(v) % power(room)) as u32
    } else {
        v
    }
}

// A word of enables as it is kept: bits of sources 1..n alone.
pub fn kept_bits(n: u32, w: u32, v: u32) -> u32
    requires { (n ≤ last_source) × (w ≤ n / 32) }
    ensures { result ≡ kept n w v }
{
    let low = low_bits(v, n + 1 - w * 32);
    if w == 0 { low - low % 2 } else { low }
}

// A written priority or threshold as it is kept: mod 2^b.
pub fn reduced(v: u32, bits: u32) -> u8
    requires { bits ≤ most_bits }
    ensures { result ≡ v % 2 ^ bits }
{
    low_bits(v, bits) as u8
}
