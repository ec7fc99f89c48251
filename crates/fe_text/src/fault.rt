use fe_memory::OutOfMemory;

/// Why a stream was not read or written to its end (`docs/schedules.md`, "Lines").
#[derive(Clone, Copy, PartialEq, Eq)]
pub enum StreamFault {
    /// A call of the stream failed, a write took no bytes, or the limit of reads or writes is reached.
    Input,
    /// Memory ran out.
    Memory(OutOfMemory),
}
