//! Tagged words, and the table of operations on them (`docs/model.md`, "Words"). A word is a 64-bit value
//! that is full or empty, by its tag. An operation has a result only if the word has the tag that it needs.
#![tactic(auto)]

mod op;
mod word;

pub use op::{Op, waits_where_unmet};
pub use word::{Need, Reply, Tag, Word};
