//! A stream, and what came of its calls, so that clauses can name it (`docs/schedules.md`, "Lines"). Only
//! this file calls the stream, and only here it is noted: each function makes one call, counts it, and notes
//! what it returned. Whoever has a stream of this type can't reach the stream itself, nor change what is
//! noted.

ghost use Rattle.std.specs.Prelude.{◌≡◌, ◌≤◌, ◌<◌, ◌+◌, ◌-◌, ◌^◌, min, true, false, None, length, take, IfOk};
ghost use Rattle.std.specs.Prelude.{IfErr, OnOk, OnErr};
ghost use Rattle.std.specs.Io.KnownBytes.{Appends, Keeps};
ghost use Rattle.fe_text.specs.Counted.{HasBroken, HasFailed, HasStopped, no_calls};
ghost use Rattle.fe_text.specs.Line.{ReadsSome};
ghost use Rattle.fe_text.specs.declared.fault.StreamFault.{StreamFault as Fault};

use crate::fault::StreamFault;
use crate::stream_errors::StreamErrors;
use std::io::{Read, Write};

/// A stream with what came of its calls.
#[derive(Drop)]
pub struct StreamCalls<S> {
    stream: S,
    /// How many reads or writes were made, interrupted ones too. The count stays at `u64::MAX`.
    count: u64,
    /// With which errors calls failed.
    errors: StreamErrors,
    /// A write of at least one byte took none.
    took_none: bool,
    /// A flush succeeded since the last write that took a byte, or none did.
    is_flushed: bool,
}

impl<S> StreamCalls<S> {
    /// The stream before its first call.
    pub(crate) fn new(stream: S) -> StreamCalls<S>
        ensures { result ≡ no_calls stream }
    {
        StreamCalls {
            stream,
            count: 0,
            errors: StreamErrors::none(),
            took_none: false,
            is_flushed: true,
        }
    }
}

impl<R: Read> StreamCalls<R> {
    /// Reads once, and returns how many bytes were read: 0 at the end of the stream, or if `piece` has no
    /// bytes. `None` means that a signal interrupted the read. If the read fails, nothing was taken from the
    /// stream.
    pub(crate) fn read(&mut self, piece: &mut [u8]) -> Result<Option<usize>, StreamFault>
        ensures reads { IfOk result (ReadsSome (R.remaining self.old.stream) (R.remaining self.new.stream)
            piece.new) }
        ensures len { length piece.new ≡ length piece.old }
        ensures stays { IfErr result (λ _. Keeps (R.remaining self.old.stream)
            (R.remaining self.new.stream)) }
        ensures counts { self.new.count ≡ min (self.old.count + 1) (2 ^ 64 - 1) }
        ensures interrupted { IfOk result (λ given. given ≡ None → self.new.errors.interrupted ≡ true) }
        ensures fails { IfErr result (HasFailed self.new) }
    {
        self.count = self.count.saturating_add(1);
        match self.stream.read(piece) {
            Ok(count) => Ok(Some(count)),
            Err(error) => match self.errors.keep(error) {
                Some(fault) => Err(fault),
                None => Ok(None),
            },
        }
    }
}

impl<W: Write> StreamCalls<W> {
    /// Writes once, and returns how many bytes were written: 0 only if there are none, or if a signal
    /// interrupted the write.
    pub(crate) fn write(&mut self, bytes: &[u8]) -> Result<usize, StreamFault>
        ensures fits { IfOk result (λ count. count ≤ length bytes.now) }
        ensures ok { IfOk result
            (λ count. Appends (W.contents self.old.stream) (W.contents self.new.stream)
            (take count bytes.now)) }
        ensures keeps { IfErr result (λ _. Keeps (W.contents self.old.stream) (W.contents self.new.stream)) }
        ensures counts { self.new.count ≡ min (self.old.count + 1) (2 ^ 64 - 1) }
        ensures unflushed { IfOk result (λ count. 0 < count → self.new.is_flushed ≡ false) }
        ensures idle { IfOk result (λ count. count ≡ 0 → self.new.is_flushed ≡ self.old.is_flushed) }
        ensures flushed { OnErr result (self.new.is_flushed ≡ self.old.is_flushed) }
        ensures fails { IfErr result (HasStopped self.new) }
        ensures stays { (fault : Fault) → HasBroken self.old fault → HasBroken self.new fault }
    {
        self.count = self.count.saturating_add(1);
        match self.stream.write(bytes) {
            Ok(0) if !bytes.is_empty() => {
                self.took_none = true;
                Err(StreamFault::Input)
            }
            Ok(count) => {
                self.is_flushed = self.is_flushed && count == 0;
                Ok(count)
            }
            Err(error) => match self.errors.keep(error) {
                Some(fault) => Err(fault),
                None => Ok(0),
            },
        }
    }

    /// Flushes once. A flush that a signal interrupts fails with `Input`.
    pub(crate) fn flush(&mut self) -> Result<(), StreamFault>
        ensures keeps { Keeps (W.contents self.old.stream) (W.contents self.new.stream) }
        ensures flushed { OnOk result (self.new.is_flushed ≡ true) }
        ensures unflushed { OnErr result (self.new.is_flushed ≡ self.old.is_flushed) }
        ensures fails { IfErr result (HasFailed self.new) }
    {
        match self.stream.flush() {
            Ok(()) => {
                self.is_flushed = true;
                Ok(())
            }
            Err(error) => Err(self.errors.keep_of_flush(error)),
        }
    }
}
