//! An undo log has the answers that its entries dropped, so that an undo can restore them (`docs/model.md`,
//! "The state of the server").

use crate::kept::Kept;

/// An answer that a session kept for a number and has dropped.
#[derive(Clone, Copy)]
pub struct Dropped {
    pub number: u64,
    pub kept: Kept,
}
