//! How the read side of a connection, its reading thread, ends (`docs/model.md`, "The hall").

use fe_memory::OutOfMemory;

/// Why a read side ended. Its connection is gone then, unless the hall is stopped.
#[derive(Clone, Copy, PartialEq, Eq)]
pub enum ReadEnd {
    /// The stream ended.
    Closed,
    /// A read failed.
    Device,
    /// A frame was outside the grammar (`docs/formats.md`, "Frames"). The offset is that of its first byte in
    /// the stream, counted from 0, or 2^64 - 1 if it is greater.
    BadFrame { offset: u64 },
    /// The hall had removed the connection.
    Gone,
    /// As many reads were made as the side may make.
    Turns,
    /// The hall is stopped.
    Stopped,
    /// A book of the hall is full.
    Spent,
    /// There was no memory for the messages that came, for one more in the list, or for the buffer of the
    /// reads.
    NoMemory(OutOfMemory),
}
