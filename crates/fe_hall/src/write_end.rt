//! Part of a connection's write side, the thread that takes mails (replies) out of the connection's box
//! (`docs/model.md`, "The hall").

use fe_memory::OutOfMemory;

/// Why a write side ended. Its connection is gone then, except at `Stopped`.
#[derive(Clone, Copy, PartialEq, Eq)]
pub enum WriteEnd {
    /// The connection was not there any more.
    Gone,
    /// A write failed, or took no byte.
    Device,
    /// The hall is stopped, and the box was empty.
    Stopped,
    /// The book, or count, of the mails that were taken is full.
    Spent,
    /// There was no memory for a receipt or for the frame of a mail.
    NoMemory(OutOfMemory),
}
