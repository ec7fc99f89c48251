//! Tagged words, and what operations need of them and answer (`docs/model.md`, "Words").

/// Whether a word is full or empty.
#[derive(Clone, Copy, PartialEq, Eq)]
pub enum Tag {
    Full,
    Empty,
}

/// A 64-bit value and its tag. An empty word has a value too.
#[derive(Clone, Copy, PartialEq, Eq)]
pub struct Word {
    pub value: u64,
    pub tag: Tag,
}

/// The tag that an operation needs its word to have.
#[derive(Clone, Copy, PartialEq, Eq)]
pub enum Need {
    Full,
    Empty,
    /// Either tag will do.
    Any,
}

/// The answer of an operation that has completed.
#[derive(Clone, Copy, PartialEq, Eq)]
pub enum Reply {
    /// The value before the operation.
    Value(u64),
    Done,
}
