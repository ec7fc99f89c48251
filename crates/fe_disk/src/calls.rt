//! A disk's calls, counted by kind: reads, writes and syncs (`docs/model.md`, "The disk").

/// How many reads, writes and syncs were made. A disk that counts them fails the next call of a kind once its
/// count of that kind is `u64::MAX`.
#[derive(Clone, Copy, PartialEq, Eq)]
pub struct Calls {
    pub reads: u64,
    pub writes: u64,
    pub syncs: u64,
}

impl Calls {
    /// No calls yet.
    pub const NONE: Calls = Calls {
        reads: 0,
        writes: 0,
        syncs: 0,
    };
}
