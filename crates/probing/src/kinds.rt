// The kind bytes of a `P`: letters, or pairs of hex digits. They are read here: this library uses no crate of the parser or of the replay.
use crate::words::hex_worth;
use arrayvec::ArrayVec;
use limits::HELD_ROOM;
use model::Kind;

// As many as are held of a line. There is no room for more: those are dropped.
pub type Kinds = ArrayVec<u8, HELD_ROOM>;

fn kind_of(letter: u8) -> Kind {
    match letter {
        b'l' => Kind::Level,
        b'e' => Kind::Edge,
        _ => Kind::Counting,
    }
}

// The kinds that the letters l, e, c stand for. It cannot fail: any other letter is taken as c, and the parser lets none through.
pub fn of_letters(letters: &[u8]) -> Kinds {
    let mut kinds = Kinds::new();
    for letter in letters {
        let _ = kinds.try_push(kind_of(*letter) as u8);
    }
    kinds
}

// The bytes that one or more pairs of hex digits stand for; none where that is not what is there.
pub fn of_pairs(digits: &[u8]) -> Option<Kinds> {
    let mut kinds = Kinds::new();
    for pair in digits.chunks(2) {
        let [high, low] = pair else {
            return None;
        };
        let kind = hex_worth(*high)? * 16 + hex_worth(*low)?;
        let _ = kinds.try_push(kind);
    }
    if kinds.is_empty() { None } else { Some(kinds) }
}
