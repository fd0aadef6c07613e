// The limits of a board and of a script's line: each number stands here, and once more in specs/ for the definitions.
#![tactic(auto)]

// Room for sources, number 0 included, and the highest number of a source.
pub const SOURCE_ROOM: usize = 128;

pub const LAST_SOURCE: u32 = SOURCE_ROOM as u32 - 1;

// Room for contexts, and the most of them; the words of 32 sources that a context has, and those of all contexts.
pub const CONTEXT_ROOM: usize = 8;

pub const MOST_CONTEXTS: u32 = CONTEXT_ROOM as u32;

pub const WORD_ROOM: usize = SOURCE_ROOM / 32;

pub const ENABLE_ROOM: usize = CONTEXT_ROOM * WORD_ROOM;

// The buckets of waits, and the last of them.
pub const BUCKET_ROOM: usize = 33;

pub const LAST_BUCKET: usize = BUCKET_ROOM - 1;

// The most priority bits, and the most extra edges of a counting source.
pub const MOST_BITS: u32 = 5;

pub const MOST_EDGES: u8 = 255;

// The bytes of the longest readable line, and how many are held of a line: one more says that it is too long.
pub const LINE_ROOM: usize = 255;

pub const HELD_ROOM: usize = LINE_ROOM + 1;
