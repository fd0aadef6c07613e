// The first bytes of a line, as many as are held. Leaves: lent bytes only.
ghost use Rattle.std.specs.Prelude.{◌≡◌, [], ◌∷◌, ◌++◌, take, replicate};
ghost use Rattle.std.proofs.lemmas.List.Edits.{sets};
ghost use Rattle.limits.specs.Limits.{held_room};
ghost use Rattle.feeding.specs.Engine.{stand_in};

use arrayvec::ArrayVec;
use limits::HELD_ROOM;

// As many bytes of a line as a replay holds, in memory that does not grow.
pub(crate) type Held = ArrayVec<u8, HELD_ROOM>;

// Adds bytes to those that are held, as far as there is room: a part of the line at a time.
fn append(line: &mut Held, more: &[u8])
    ensures { line.new.items ≡ take held_room (line.old.items ++ more.now) }
{
    let n = more.len().min(line.remaining_capacity());
    let _ = line.try_extend_from_slice(&more[..n]);
}

// A line in two parts, as far as there is room.
pub(crate) fn joined(first: &[u8], more: &[u8]) -> Held
    ensures { result.items ≡ take held_room (first.now ++ more.now) }
{
    let mut line = Held::new();
    append(&mut line, first);
    append(&mut line, more);
    line
}

// The bytes that are held, in their room: zeros after them.
pub(crate) fn with_zeros(line: &Held) -> [u8; HELD_ROOM]
    ensures { result ≡ sets (replicate held_room 0) 0 line.now.items }
{
    let mut bytes = [0; HELD_ROOM];
    bytes[..line.len()].copy_from_slice(line.as_slice());
    bytes
}

// A line in two parts, with its line feed. A line that leaves no room for it is too long, and unreadable as an empty line is, which
// stands for it: so all lines go one way.
pub(crate) fn with_line_feed(first: &[u8], more: &[u8]) -> Held
    ensures { result.items ≡ stand_in (first.now ++ more.now) ++ (10 ∷ []) }
{
    let mut line = joined(first, more);
    if line.is_full() {
        line.clear();
    }
    line.push(b'\n');
    line
}
