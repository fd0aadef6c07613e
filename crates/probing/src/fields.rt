// The fields of a state as the language names them: their order, their names, how many numbers each has, and how large those may be.
ghost use Rattle.std.specs.Prelude.{◌+◌, ◌<◌, ◌≤◌, length};
ghost use Rattle.limits.specs.Limits.{source_room, enable_room};

use limits::{BUCKET_ROOM, CONTEXT_ROOM, ENABLE_ROOM, SOURCE_ROOM};
use std::fmt;

#[derive(Clone, Copy)]
pub enum Field {
    Sources,
    Contexts,
    Bits,
    Clock,
    Steps,
    Kind,
    Stage,
    Line,
    Extra,
    Priority,
    Start,
    Claims,
    Waited,
    Enable,
    Threshold,
    BucketClaims,
    BucketTicks,
}

// In the order in which they are shown.
pub static FIELDS: [Field; 17] = [
    Field::Sources,
    Field::Contexts,
    Field::Bits,
    Field::Clock,
    Field::Steps,
    Field::Kind,
    Field::Stage,
    Field::Line,
    Field::Extra,
    Field::Priority,
    Field::Start,
    Field::Claims,
    Field::Waited,
    Field::Enable,
    Field::Threshold,
    Field::BucketClaims,
    Field::BucketTicks,
];

impl Field {
    pub fn name(self) -> &'static str
        ensures { 0 < length result.now }
    {
        match self {
            Field::Sources => "sources",
            Field::Contexts => "contexts",
            Field::Bits => "bits",
            Field::Clock => "clock",
            Field::Steps => "steps",
            Field::Kind => "kind",
            Field::Stage => "stage",
            Field::Line => "line",
            Field::Extra => "extra",
            Field::Priority => "priority",
            Field::Start => "start",
            Field::Claims => "claims",
            Field::Waited => "waited",
            Field::Enable => "enable",
            Field::Threshold => "threshold",
            Field::BucketClaims => "bucket_claims",
            Field::BucketTicks => "bucket_ticks",
        }
    }

    // How many numbers a state has of the field.
    pub fn room(self) -> usize
        ensures { (0 < result) × (result ≤ source_room + enable_room) }
    {
        match self {
            Field::Sources | Field::Contexts | Field::Bits | Field::Clock | Field::Steps => 1,
            Field::Enable => ENABLE_ROOM,
            Field::Threshold => CONTEXT_ROOM,
            Field::BucketClaims | Field::BucketTicks => BUCKET_ROOM,
            _ => SOURCE_ROOM,
        }
    }

    // The largest value that fits the field.
    pub fn last_value(self) -> u64
        ensures { 0 < result }
    {
        match self {
            Field::Line => 1,
            Field::Kind | Field::Stage | Field::Extra | Field::Priority | Field::Threshold =>
                u64::from(u8::MAX),
            Field::BucketTicks => u64::MAX,
            _ => u64::from(u32::MAX),
        }
    }
}

impl fmt::Display for Field {
    fn fmt<W: fmt::Write>(&self, f: &mut fmt::Formatter<W>) -> fmt::Result {
        f.write_str(self.name())
    }
}

// The field of a name.
pub fn field_named(name: &[u8]) -> Option<Field> {
    FIELDS
        .iter()
        .copied()
        .find(|field| field.name().as_bytes() == name)
}
