//! The parts of a desk (`docs/model.md`, "The desk"). `Desk` has them, with an invariant.

use crate::handed::Handed;
use crate::trace::Trace;
use fe_disk::Disk;
use fe_front::Front;
use fe_keeper::Keeper;
use std::alloc::Global;

/// The parts of a desk.
#[derive(Drop)]
pub(crate) struct DeskInner<D: Disk> {
    pub front: Front,
    pub keeper: Keeper<D>,
    pub trace: Trace,
    pub handed: Handed,
    /// The connection for whose message room in the front is being made: entries are stored and posted first.
    pub making: Option<u64>,
    /// Mails of an earlier step are still to be written.
    pub owes: bool,
    pub alloc: Global,
}
