//! The bounds of reading and writing a stream, which are those of a schedule (`docs/schedules.md`, "Lines").

ghost use Rattle.std.specs.Prelude.{◌≡◌, vec_len, IfOk, IfErr};
ghost use Rattle.fe_memory.specs.Memory.{out_of_memory};

use crate::fault::StreamFault;
use fe_memory::OutOfMemory;
use std::alloc::Global;

/// The maximum number of reads of a stream.
pub const READS: u64 = 1 << 40;

/// The maximum number of bytes in one read.
pub const PIECE: usize = 65_536;

/// The maximum number of writes for one text.
pub const WRITES: u64 = 1 << 40;

/// A buffer of `count` bytes for reads. Fails only with `Memory`.
pub fn buffer(alloc: Global, count: usize) -> Result<Vec<u8>, StreamFault>
    ensures len { IfOk result (λ piece. vec_len piece ≡ count) }
    ensures err { IfErr result (λ fault. fault ≡ StreamFault.Memory out_of_memory) }
{
    match vec![in alloc; 0; count] {
        Ok(piece) => Ok(piece),
        Err(error) => Err(StreamFault::Memory(OutOfMemory::from(error))),
    }
}
