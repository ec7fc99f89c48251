//! The limits of the server, for the code (`docs/model.md`, "The state of the server" and "Waiting
//! requests"). Definitions and clauses have those of `specs/Limits.antt`; laws say that they are the same.

/// How many sessions there are at most.
pub const SESSIONS: usize = 64;

/// How many numbers the window of a session has, from its floor on.
pub const WINDOW: u64 = 32;

/// The greatest floor of a session: the numbers of its window are below 2^63.
pub const GREATEST_FLOOR: u64 = (1 << 63) - WINDOW;

/// How many arrays there are at most.
pub const ARRAYS: usize = 64;

/// How many words there are at most, in one array and in all together.
pub const WORDS: u32 = 65_536;

/// How many bytes a name has at most.
pub const NAME_BYTES: usize = 32;

/// How many requests may wait: one for each number of each session.
pub const WAITING: usize = SESSIONS * WINDOW as usize;

/// How many entries one event, such as a client's message, adds to the history at most: its own, and one for
/// each request that waited.
pub const EVENT_ENTRIES: usize = WAITING + 1;

/// How many entries a batch, which is stored at once, has at most. An event makes entries only while at most
/// `WAITING` earlier ones are pending, which means in no batch yet.
pub const BATCH_ENTRIES: usize = WAITING + EVENT_ENTRIES;

/// The greatest place: no entry follows there.
pub const GREATEST_PLACE: u64 = (1 << 63) - 1;
