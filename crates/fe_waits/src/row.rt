//! What a node of the lists has of its waiting request (`docs/model.md`, "Waiting requests"). A slot stands
//! for a session.

use fe_words::Op;

/// A waiting request.
#[derive(Clone, Copy, PartialEq, Eq)]
pub struct Row {
    /// The slot of its session, 0 to 63.
    pub slot: u8,
    /// Its request number in the session.
    pub number: u64,
    /// The id of the array, and the index of its word there.
    pub array: u64,
    pub index: u32,
    pub op: Op,
}
