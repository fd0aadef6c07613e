// Looking into a field: its value at an index, 0 past its last. A field of one number has it at every index.
use crate::fields::Field;
use model::State;

fn value_at<T: Copy + Into<u64>>(row: &[T], i: usize) -> u64 {
    row.get(i).map_or(0, |value| (*value).into())
}

// A number for every index: it is public, and it cannot fail. A `match` over closed cases, one line each.
pub fn value_of(state: &State, field: Field, i: usize) -> u64 {
    match field {
        Field::Sources => u64::from(state.shape.sources),
        Field::Contexts => u64::from(state.shape.contexts),
        Field::Bits => u64::from(state.shape.bits),
        Field::Clock => u64::from(state.clock),
        Field::Steps => u64::from(state.steps),
        Field::Kind => value_at(&state.shape.kind, i),
        Field::Stage => value_at(&state.requests.stage, i),
        Field::Line => value_at(&state.requests.line, i),
        Field::Extra => value_at(&state.requests.extra, i),
        Field::Priority => value_at(&state.settings.priority, i),
        Field::Start => value_at(&state.requests.start, i),
        Field::Claims => value_at(&state.counts.claims, i),
        Field::Waited => value_at(&state.counts.waited, i),
        Field::Enable => value_at(&state.settings.enable, i),
        Field::Threshold => value_at(&state.settings.threshold, i),
        Field::BucketClaims => value_at(&state.buckets.claims, i),
        Field::BucketTicks => value_at(&state.buckets.ticks, i),
    }
}
