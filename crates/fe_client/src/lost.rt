//! Why a connection is over: what one read of it shows (`docs/commands.md`, "Commands").

ghost use Rattle.std.specs.Prelude.{◌<◌, ◌≤◌, ◌≡◌, length, IfOk, IfErr};
ghost use Rattle.std.specs.Io.KnownBytes.{WriteAppends};
ghost use Rattle.fe_streams.specs.Incoming.{bytes_read};
ghost use Rattle.fe_client.specs.Streams.{EndsIfEnded};

use fe_streams::{Incoming, StreamFailed};
use std::io::Read;

/// A read of at least one byte gave none. Only `receive_some` makes it.
#[derive(Clone, Copy, PartialEq, Eq)]
pub struct Ended(());

/// Why a connection is over.
#[derive(Clone, Copy, PartialEq, Eq)]
pub enum Lost {
    /// A read or a write failed.
    Failed(StreamFailed),
    /// The other end has closed it.
    Ended(Ended),
}

/// Reads some bytes into the front of the buffer, at least one, and returns how many.
pub(crate) fn receive_some<R: Read>(
    incoming: &mut Incoming<R>,
    buffer: &mut [u8],
) -> Result<usize, Lost>
    requires { 0 < length buffer.old }
    ensures some { IfOk result (λ count. 0 < count) }
    ensures fits { IfOk result (λ count. count ≤ length buffer.old) }
    ensures read { WriteAppends
        (bytes_read (R.remaining incoming.old.began.value) (R.remaining incoming.old.reader))
        (bytes_read (R.remaining incoming.new.began.value) (R.remaining incoming.new.reader))
        result buffer.new }
    ensures began { incoming.new.began ≡ incoming.old.began }
    ensures ended { IfErr result (λ why. EndsIfEnded why (R.remaining incoming.new.reader)) }
{
    match incoming.read_some(buffer) {
        Ok(0) => Err(Lost::Ended(Ended(()))),
        Ok(count) => Ok(count),
        Err(failure) => Err(Lost::Failed(failure)),
    }
}
