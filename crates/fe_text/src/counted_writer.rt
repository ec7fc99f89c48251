//! A writer that notes what came of its writes and flushes (`docs/schedules.md`, "Lines").

ghost use Rattle.std.specs.Prelude.{◌≡◌, ℕ, true, length, take, IfErr, OnOk};
ghost use Rattle.std.specs.Io.KnownBytes.{Appends};
ghost use Rattle.fe_text.specs.Counted.{HasBroken, no_calls};
ghost use Rattle.fe_text.specs.declared.fault.StreamFault.{StreamFault as Fault};

use crate::fault::StreamFault;
use crate::stream::WRITES;
use crate::stream_calls::StreamCalls;
use crate::streams::Sink;
use std::io::Write;

/// A writer of `std` as a sink. For clauses it counts its writes, and notes the faults with which its calls
/// failed, and whether all that was written is flushed.
#[derive(Drop)]
pub struct CountedWriter<W> {
    calls: StreamCalls<W>,
}

impl<W> CountedWriter<W> {
    /// The writer before its first write.
    pub fn new(stream: W) -> CountedWriter<W>
        ensures calls { result.calls ≡ no_calls stream }
    {
        CountedWriter {
            calls: StreamCalls::new(stream),
        }
    }
}

impl<W: Write> CountedWriter<W> {
    /// Writes the whole text. If the writer fails, a prefix of the text is written. A write that takes no
    /// bytes, or 2^40 writes for the text, are faults of the writer.
    fn write_all(&mut self, text: &[u8]) -> Result<(), StreamFault>
        ensures ok { OnOk result (Appends (W.contents self.old.calls.stream)
            (W.contents self.new.calls.stream) text.now) }
        ensures front { (count : ℕ)
            × Appends (W.contents self.old.calls.stream) (W.contents self.new.calls.stream)
            (take count text.now)
            × (count ≡ 0 → self.new.calls.is_flushed ≡ self.old.calls.is_flushed) }
        ensures idle { length text.now ≡ 0 → self.new.calls.is_flushed ≡ self.old.calls.is_flushed }
        ensures fails { IfErr result (HasBroken self.new.calls) }
        ensures stays { (fault : Fault) → HasBroken self.old.calls fault → HasBroken self.new.calls fault }
    {
        let mut done = 0;
        for turn in 0..WRITES {
            if done == text.len() {
                return Ok(());
            }
            done += self.calls.write(&text[done..])?;
        }
        Err(StreamFault::Input)
    }
}

impl<W: Write> Sink for CountedWriter<W> {
    ghost use Rattle.std.specs.Prelude.{◌≡◌, true};
    ghost use Rattle.fe_text.specs.Counted.{HasBroken};

    ghost contents = { λ writer. W.contents writer.calls.stream };

    ghost has_failed = { λ writer fault. HasBroken writer.calls fault };

    ghost is_handed_on = { λ writer. writer.calls.is_flushed ≡ true };

    fn write_text(&mut self, text: &[u8]) -> Result<(), StreamFault> {
        self.write_all(text)
    }

    fn write_whole(&mut self, text: &mut String) -> Result<(), StreamFault> {
        let written = self.write_all(text.as_bytes());
        text.clear();
        written
    }

    fn hand_on(&mut self) -> Result<(), StreamFault> {
        self.calls.flush()
    }
}
