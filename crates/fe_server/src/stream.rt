//! The two directions of a connection, over any reader and over any writer, for its two sides in the hall
//! (`docs/proved.md`, "Server").

ghost use Rattle.std.specs.Prelude.{◌≡◌, []};
ghost use Rattle.fe_server.specs.Transcripts.{AreRead};

use crate::byte_log::ByteLog;
use fe_hall::{Free, HalfFault, ReadCount, ReadHalf, WriteHalf};
use fe_streams::{Incoming, StreamFailed, write_some};
use std::io::{Read, Write};

/// The direction from the client, over a reader. It notes the bytes that it receives, also those of a socket.
#[derive(Drop)]
pub struct StreamRead<R: Read> {
    incoming: Incoming<R>,
    received: ByteLog,
    failure: Option<StreamFailed>,
    reads: ReadCount,
    ghost read: { AreRead (R.remaining incoming.began.value) (R.remaining incoming.reader) received },
}

impl<R: Read> StreamRead<R> {
    /// The direction from the client, before the first read.
    pub fn new(reader: R) -> StreamRead<R>
        ensures reader { result.incoming.reader ≡ reader }
        ensures began { result.incoming.began.value ≡ reader }
        ensures received { result.received ≡ [] }
        ensures reads { result.reads ≡ 0 }
    {
        StreamRead {
            incoming: Incoming::new(reader),
            received: ByteLog::new(),
            failure: None,
            reads: ReadCount::none(),
        }
    }
}

impl<R: Read> ReadHalf for StreamRead<R> {
    ghost use Rattle.std.specs.Prelude.{IsSome};
    ghost use Rattle.std.specs.Io.KnownBytes.{IsAtEnd};

    ghost is_known = { λ _. Unit {0} };

    ghost known = { λ h. h.received };

    ghost reads = { λ h. h.reads };

    ghost ended = { λ h. IsAtEnd (R.remaining h.incoming.reader) };

    ghost failed = { λ h. IsSome h.failure };

    fn read(&mut self, _free: &mut Free, buffer: &mut [u8]) -> Result<usize, HalfFault> {
        self.reads.rise();
        match self.incoming.read_some(buffer) {
            Ok(count) => {
                self.received.note(&buffer[..count]);
                Ok(count)
            }
            Err(failure) => {
                self.failure = Some(failure);
                Err(HalfFault)
            }
        }
    }
}

/// The direction to the client, over a writer. Its bytes are known if those of the writer are, as those that
/// a `SocketWriter` notes.
#[derive(Drop)]
pub struct StreamWrite<W: Write> {
    writer: W,
    failure: Option<StreamFailed>,
}

impl<W: Write> StreamWrite<W> {
    /// The direction to the client, before the first write.
    pub fn new(writer: W) -> StreamWrite<W>
        ensures { result.writer ≡ writer }
    {
        StreamWrite {
            writer,
            failure: None,
        }
    }
}

impl<W: Write> WriteHalf for StreamWrite<W> {
    ghost use Rattle.std.specs.Prelude.{IsSome};
    ghost use Rattle.fe_server.specs.Sides.{known_bytes};

    ghost is_known = { λ h. IsSome (W.contents h.writer) };

    ghost got = { λ h. known_bytes (W.contents h.writer) };

    ghost failed = { λ h. IsSome h.failure };

    fn write(&mut self, _free: &mut Free, bytes: &[u8]) -> Result<usize, HalfFault> {
        match write_some(&mut self.writer, bytes) {
            Ok(count) => Ok(count),
            Err(failure) => {
                self.failure = Some(failure);
                Err(HalfFault)
            }
        }
    }
}
