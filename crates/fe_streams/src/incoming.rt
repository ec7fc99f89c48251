//! A reader together with what was read from it (`docs/proved.md`, "Desk").

ghost use Rattle.std.specs.Prelude.{◌≡◌, ◌<◌, ◌≤◌, length, IfOk};
ghost use Rattle.std.specs.Io.KnownBytes.{IsAtEnd, WriteAppends};
ghost use Rattle.fe_streams.specs.Incoming.{HasRead, bytes_read};

use crate::{StreamFailed, TRIES};
use std::io::{ErrorKind, Read};
use std::snapshot::Snapshot;

/// A reader. Clauses, not the program, also see which bytes were read from it, if `R.remaining` gives its
/// bytes.
#[derive(Drop)]
pub struct Incoming<R: Read> {
    reader: R,
    /// The reader before the first read.
    began: Snapshot<R>,
    ghost read: { HasRead (R.remaining began.value) (R.remaining reader) },
}

impl<R: Read> Incoming<R> {
    /// This reader, before its first read.
    pub fn new(reader: R) -> Incoming<R>
        ensures reader { result.reader ≡ reader }
        ensures began { result.began.value ≡ reader }
    {
        let began = Snapshot::of(&reader);
        Incoming { reader, began }
    }

    /// Reads bytes into the front of the buffer and returns how many: at least one, except at the end of the
    /// stream or if the buffer is empty.
    pub fn read_some(&mut self, buffer: &mut [u8]) -> Result<usize, StreamFailed>
        ensures fits { IfOk result (λ count. count ≤ length buffer.old) }
        // What is read is added to the bytes that were read before; a failed read adds nothing.
        ensures read { WriteAppends (bytes_read (R.remaining self.old.began.value)
            (R.remaining self.old.reader))
            (bytes_read (R.remaining self.new.began.value) (R.remaining self.new.reader)) result buffer.new }
        ensures began { self.new.began ≡ self.old.began }
        ensures end { IfOk result (λ count. count ≡ 0 → 0 < length buffer.old
            → IsAtEnd (R.remaining self.new.reader)) }
    {
        for _ in 0..TRIES {
            match self.reader.read(buffer) {
                Ok(count) => return Ok(count),
                Err(error) => {
                    if error.kind() != ErrorKind::Interrupted {
                        return Err(StreamFailed(()));
                    }
                }
            }
        }
        Err(StreamFailed(()))
    }
}
