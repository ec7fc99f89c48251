//! The replica, a copy of the server's state that follows the store (`docs/model.md`, "The replica"). A batch
//! of entries, the steps of the history, is taken entry by entry and can be taken back; a stored group is
//! replayed entry by entry.
#![tactic(auto)]

mod replaying;
mod taking;

pub use replaying::{ReplayFault, replay};
pub use taking::{Refused, take};
