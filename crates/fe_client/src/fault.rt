use fe_memory::OutOfMemory;
use fe_text::StreamFault;

/// Why a call, that is a run of `femem call`, did not do all that its input asks.
#[derive(Clone, Copy, PartialEq, Eq)]
pub enum CallFault {
    /// The line of that number, counted from 1, has not the form of a schedule's line without `cN `
    /// (`docs/schedules.md`, "Lines").
    Line(u64),
    /// There is no server, or the connection failed, ended before a reply or had a bad frame.
    Socket,
    /// The input can't be read or the output can't be written; or after 2^40 reads of a stream, 2^40 writes
    /// of one text, or 2^64 - 1 lines.
    Input,
    /// Memory ran out.
    Memory(OutOfMemory),
}

impl From<StreamFault> for CallFault {
    ghost use Rattle.std.specs.Prelude.{◌≡◌};
    ghost use Rattle.fe_client.specs.Ends.{of_stream};

    ghost from_gives = { λ before fault. fault ≡ of_stream before };

    fn from(before: StreamFault) -> CallFault {
        match before {
            StreamFault::Input => CallFault::Input,
            StreamFault::Memory(error) => CallFault::Memory(error),
        }
    }
}
