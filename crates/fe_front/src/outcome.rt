//! How a call ends that is not refused, and a batch that cannot be posted (`docs/model.md`, "The front").

use fe_state::Batch;

/// The outcome of a call that was not refused.
#[derive(Clone, Copy, PartialEq, Eq)]
pub enum Outcome {
    /// The request completed. This many entries were made, 1 to 2,049: its own, and one for each waiting
    /// request that it let complete.
    Completed { entries: u32 },
    /// The request waits.
    Waits,
    /// The same request waits already under that number.
    AlreadyWaiting,
    /// The same request completed under that number, and its answer is mailed again.
    SentAgain,
    /// The same request completed under that number, and its entry is not posted yet.
    NotYetSynced,
}

/// A call that was not refused.
#[derive(Clone, Copy, PartialEq, Eq)]
pub struct TakenCall {
    /// The session that it was for: that of its connection.
    pub session: u64,
    pub outcome: Outcome,
}

/// A batch that is not the one that is out (cut and not yet posted).
#[derive(Drop)]
pub struct StrangeBatch(pub Batch);
