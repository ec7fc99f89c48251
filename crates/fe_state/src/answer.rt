//! The answers of the server; a request gets the first one that applies (`docs/model.md`, "The state of the
//! server").

/// The answer that a request gets once it completes.
#[derive(Clone, Copy, PartialEq, Eq)]
pub enum Answer {
    /// The value of the word before the operation.
    Value(u64),
    Done,
    /// The array that was made or found: its id, and its length in words.
    Array { id: u64, length: u32 },
    /// No array has the id, or the name.
    NoArray,
    /// The array has no word at the index.
    BadIndex,
    /// An array of that name exists already.
    NameTaken,
    /// There are 64 arrays already.
    ArrayLimit,
    /// All arrays together would have more than 65,536 words.
    WordLimit,
    /// The name does not have 1 to 32 bytes, or has one other than `a` to `z`, `0` to `9` and `_`.
    BadName,
    /// The length is not 1 to 65,536 words.
    BadLength,
    /// The word does not have the tag, full or empty, that the operation needs, and the request must not
    /// wait.
    NotNow,
}
