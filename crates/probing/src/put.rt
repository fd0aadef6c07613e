// Putting a value into a field, unchecked: sound or not, every state can be made.
ghost use Rattle.std.specs.Prelude.{◌≡◌, IfNone};

use crate::fields::Field;
use model::State;

// A value goes to an index that there is.
fn set<T: Copy>(row: &mut [T], i: usize, value: T) {
    if let Some(place) = row.get_mut(i) {
        *place = value;
    }
}

// Puts v into a field at an index; the state stays as it is where the field has no such index. It cannot fail: of a value that does not
// fit the field its lowest bits are put, and a field of one number is put at every index. A `match` over closed cases, one line each.
pub fn put(state: &mut State, field: Field, i: usize, v: u64) {
    let byte = (v % 256) as u8;
    let word = (v % 4294967296) as u32;
    match field {
        Field::Sources => state.shape.sources = word,
        Field::Contexts => state.shape.contexts = word,
        Field::Bits => state.shape.bits = word,
        Field::Clock => state.clock = word,
        Field::Steps => state.steps = word,
        Field::Kind => set(&mut state.shape.kind, i, byte),
        Field::Stage => set(&mut state.requests.stage, i, byte),
        Field::Line => set(&mut state.requests.line, i, v == 1),
        Field::Extra => set(&mut state.requests.extra, i, byte),
        Field::Priority => set(&mut state.settings.priority, i, byte),
        Field::Start => set(&mut state.requests.start, i, word),
        Field::Claims => set(&mut state.counts.claims, i, word),
        Field::Waited => set(&mut state.counts.waited, i, word),
        Field::Enable => set(&mut state.settings.enable, i, word),
        Field::Threshold => set(&mut state.settings.threshold, i, byte),
        Field::BucketClaims => set(&mut state.buckets.claims, i, word),
        Field::BucketTicks => set(&mut state.buckets.ticks, i, v),
    }
}

// The same where the field has such an index and v fits it; none, and nothing is put, where not.
pub fn put_fitting(state: &mut State, field: Field, i: usize, v: u64) -> Option<()>
    ensures { IfNone result (state.new ≡ state.old) }
{
    if i < field.room() && v <= field.last_value() {
        put(state, field, i, v);
        Some(())
    } else {
        None
    }
}
