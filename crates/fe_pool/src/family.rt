//! A waiting request is on a list of its word, and on one of its session (`docs/model.md`, "Waiting
//! requests").

/// The two families of lists: those of words and those of sessions. A node is on at most one list of each.
#[derive(Clone, Copy, PartialEq, Eq)]
pub enum Family {
    OfWord,
    OfSession,
}
