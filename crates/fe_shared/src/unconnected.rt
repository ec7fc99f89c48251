//! Part of the hall, which makes each connection, with seats for its two sides (`docs/model.md`, "The hall").

use crate::shared::{AllMade, InUse};
use fe_memory::OutOfMemory;

/// Why no connection was made.
#[derive(Clone, Copy, PartialEq, Eq)]
pub enum Unconnected {
    /// A connection with that number is connected.
    InUse(InUse),
    /// Memory was short.
    NoMemory(OutOfMemory),
    /// All connections that a hall makes, 2^62, were made.
    Spent(AllMade),
}
