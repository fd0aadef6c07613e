// The state of the controller, and what its calls answer. Types only: what they mean is in specs/, what is proved of that in proofs/.
#![tactic(auto)]

use limits::{BUCKET_ROOM, CONTEXT_ROOM, ENABLE_ROOM, SOURCE_ROOM};

// What a source's kind byte says: level, edge that drops extra edges, edge that counts them. A state that is handed in may hold
// other bytes; a sound one holds none.
#[derive(Clone, Copy, Debug, PartialEq, Eq)]
pub enum Kind {
    Level = 0,
    Edge = 1,
    Counting = 2,
}

// What the stage of a source's request says. Here too a state that is handed in may hold other bytes.
#[derive(Clone, Copy, Debug, PartialEq, Eq)]
pub enum Stage {
    Idle = 0,
    Pending = 1,
    InService = 2,
}

// What the board contains: N sources, C contexts, b priority bits, and the byte of its kind for each source. Number 0 is no source and
// keeps zero. A byte, and no `Kind`: a state that is handed in may hold any (Sound.sound_iff). One array by source is a form that document
// 01 names.
#[derive(Clone, Copy)]
pub struct Shape {
    pub sources: u32,
    pub contexts: u32,
    pub bits: u32,
    pub kind: [u8; SOURCE_ROOM],
}

// What software sets by writing: priorities by source, enables as words of 32 sources (context × WORD_ROOM + word), thresholds by context.
// One array for each quantity by source is a form that document 01 names; the enables are packed in words, as document 01 has them.
#[derive(Clone, Copy)]
pub struct Settings {
    pub priority: [u8; SOURCE_ROOM],
    pub enable: [u32; ENABLE_ROOM],
    pub threshold: [u8; CONTEXT_ROOM],
}

// The life of one source's request: its stage, its line, the extra edges of a counting source, and the clock when it became pending. The
// stage is a byte, and no `Stage`: a state that is handed in may hold any (Sound.sound_iff).
#[derive(Clone, Copy)]
pub struct Request {
    pub stage: u8,
    pub line: bool,
    pub extra: u8,
    pub start: u32,
}

// The same for each source: one array for each quantity by source, a form that document 01 names.
#[derive(Clone, Copy)]
pub struct Requests {
    pub stage: [u8; SOURCE_ROOM],
    pub line: [bool; SOURCE_ROOM],
    pub extra: [u8; SOURCE_ROOM],
    pub start: [u32; SOURCE_ROOM],
}

// The finished waits of each source: how many claims, and the ticks that those waited. One array for each, a form that document 01 names.
// Beside `Buckets` a struct of its own: by source and by bucket are two quantities of document 01.
#[derive(Clone, Copy)]
pub struct Counts {
    pub claims: [u32; SOURCE_ROOM],
    pub waited: [u32; SOURCE_ROOM],
}

// The finished waits of the whole board by length: bucket 0 holds waits of 0, bucket k those from 2^(k-1) to 2^k - 1. The two arrays are
// the lists of the definitions (Waits.booked).
#[derive(Clone, Copy)]
pub struct Buckets {
    pub claims: [u32; BUCKET_ROOM],
    pub ticks: [u64; BUCKET_ROOM],
}

#[derive(Clone, Copy)]
pub struct State {
    pub shape: Shape,
    pub clock: u32,
    pub steps: u32,
    pub settings: Settings,
    pub requests: Requests,
    pub counts: Counts,
    pub buckets: Buckets,
}

// Why a call is refused, under the table's numbers.
#[derive(Clone, Copy, Debug, PartialEq, Eq)]
pub enum Refusal {
    BadShape = 1,
    NotSound = 2,
    NoStepLeft = 3,
    OffsetAbove = 4,
    OffsetUnaligned = 5,
    NoSuchSource = 6,
    NoSuchContext = 7,
    ClockPast = 8,
    PerMilleOutside = 9,
    NothingToDivide = 10,
    Unreadable = 11,
}

// A register of the map, by the number of its source, word or context. `Nothing` is a case of the map (Registers.decode), and no absence.
#[derive(Clone, Copy)]
pub enum Register {
    Priority(usize),
    Pending(usize),
    Enable(usize, usize),
    Threshold(usize),
    Claim(usize),
    Nothing,
}

// What the mean report answers: ticks waited, and claims.
#[derive(Clone, Copy)]
pub struct Mean {
    pub ticks: u64,
    pub claims: u32,
}

// What the totals answer: clock, claims, ticks waited by claims, and ages still open.
#[derive(Clone, Copy)]
pub struct Totals {
    pub clock: u32,
    pub claims: u32,
    pub waited: u64,
    pub ages: u64,
}

// What making a state answers: a value or a refusal, and the state that goes with it.
#[derive(Clone, Copy)]
pub struct Answered {
    pub answer: Result<u32, Refusal>,
    pub state: State,
}
