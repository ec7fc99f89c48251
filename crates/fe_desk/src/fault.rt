//! How a step or the opening of a desk fails (`docs/model.md`, "The desk"). A mail, a reply on its way out,
//! is owed until it is written.

use fe_keeper::Fault;
use fe_memory::OutOfMemory;

/// Why a step did nothing, or not all; or why a store was not opened or formatted.
#[derive(Clone, Copy, PartialEq, Eq)]
pub enum DeskFault {
    /// The store is at fault. In a step: `Device` if the device failed in it, and `Failed` in each step after
    /// that, until the store is opened again. In opening: `Device`, `Unformatted` and `Damaged`, and in
    /// formatting the first two, as `fe_keeper` reports them.
    Store(Fault),
    /// Memory ran out while a store was opened or formatted; or in a step, for mails that are owed, a
    /// connection, a batch, a message that the piece completes, or the beginning of a checkpoint. What the
    /// step did before stays done. The step may be given again: as it was, or with an empty piece if its
    /// bytes were read (`fed`).
    NoMemory { error: OutOfMemory, fed: bool },
    /// The step took effect, but memory ran out for some of its mails. The next step writes them first.
    Unwritten(OutOfMemory),
}
