//! A reader that notes what came of its reads (`docs/schedules.md`, "Lines").

ghost use Rattle.std.specs.Prelude.{◌≡◌};
ghost use Rattle.fe_text.specs.Counted.{no_calls};

use crate::fault::StreamFault;
use crate::stream_calls::StreamCalls;
use crate::streams::Source;
use std::io::Read;

/// A reader (`std::io::Read`) as a source. It counts its reads, interrupted ones too, and notes with which
/// faults they failed, so that clauses can name them.
#[derive(Drop)]
pub struct CountedReader<R> {
    calls: StreamCalls<R>,
}

impl<R> CountedReader<R> {
    /// The reader before its first read.
    pub fn new(stream: R) -> CountedReader<R>
        ensures calls { result.calls ≡ no_calls stream }
    {
        CountedReader {
            calls: StreamCalls::new(stream),
        }
    }
}

impl<R: Read> Source for CountedReader<R> {
    ghost use Rattle.std.specs.Prelude.{◌≡◌, true};
    ghost use Rattle.std.specs.Prelude.{◌-◌, ◌^◌};
    ghost use Rattle.std.proofs.Common.{ap, ◌∙◌};
    ghost use Rattle.std.proofs.Math.Nat.{le_of_sub-eq-zero, zero-min, zero-sub};
    ghost use Rattle.fe_text.specs.Counted.{HasFailed, WasRead};

    ghost remaining = { λ reader. R.remaining reader.calls.stream };

    ghost was_read = { λ reader count. WasRead reader.calls count };

    ghost was_interrupted = { λ reader. reader.calls.errors.interrupted ≡ true };

    ghost has_failed = { λ reader fault. HasFailed reader.calls fault };

    ghost begins = { λ s. le_of_sub-eq-zero (ap (λ n. n - s.calls.count) (zero-min (2 ^ 64 - 1))
        ∙ zero-sub s.calls.count) };

    fn read_piece(&mut self, piece: &mut [u8]) -> Result<Option<usize>, StreamFault> {
        self.calls.read(piece)
    }
}
