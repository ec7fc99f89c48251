//! The way of a batch: it is cut from pending entries, stored, and then posted: its mails go into boxes
//! (`docs/model.md`, "The desk").

use fe_state::Batch;

/// The batch that is out of the front, on its way to the store.
#[derive(Drop)]
pub(crate) enum Handed {
    /// No batch is out.
    Nothing,
    /// The batch is cut and not stored.
    Cut(Batch),
    /// The batch is stored and not posted.
    Stored(Batch),
}
