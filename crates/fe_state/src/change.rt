//! The part of an undo log that concerns the arrays (`docs/model.md`, "The state of the server").

use crate::array::Array;
use fe_words::Word;

/// What a request changed of the arrays, with what it takes to restore them.
#[derive(Drop)]
pub enum Change {
    Nothing,
    /// The array made last is new.
    Created,
    /// The array is gone.
    Removed { id: u64, array: Array },
    /// An array's word at the index was this one.
    Wrote { array: u64, index: u32, word: Word },
}
