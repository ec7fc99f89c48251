//! The part of an entry's effect that concerns the arrays; an entry is a step of the history
//! (`docs/model.md`, "The state of the server").

use fe_words::Word;

/// What a request changes of the arrays once it completes.
#[derive(Clone, Copy)]
pub enum Effect {
    Nothing,
    /// The array that the request describes is made.
    Create,
    /// The array is removed.
    Remove { array: u64 },
    /// The array gets this word at the index.
    Write { array: u64, index: u32, word: Word },
}
