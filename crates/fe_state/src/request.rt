//! The requests on arrays and their words (`docs/model.md`, "The state of the server" and "Words").

use crate::name::Name;
use fe_words::{Op, Tag};

/// What a client asks of the arrays.
#[derive(Clone, Copy, PartialEq, Eq)]
pub enum Request {
    /// Make a new array of this many words, each of value 0 and with the tag.
    Create {
        name: Name,
        length: u32,
        tag: Tag,
    },
    /// Find the array of that name.
    Find {
        name: Name,
    },
    /// Remove the array, with its words.
    Remove {
        array: u64,
    },
    /// Apply an operation to one word. With `no_wait` it is answered `NotNow` if it would have to wait.
    Access {
        array: u64,
        index: u32,
        op: Op,
        no_wait: bool,
    },
}
