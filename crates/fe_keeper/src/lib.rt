//! The keeper of a store: a replica of the server's state, and the journal in which that is kept.
//!
//! Batches are appended as groups, checkpoints are made in slices between them, and a store is opened as
//! the state after whole groups, wherever it was stopped (`docs/store.md`).
#![tactic(auto)]

mod assembling;
mod checkpoint;
mod checkpointing;
mod fault;
mod keeper;
mod keeper_store;
mod laws;
mod opening;
mod recovering;

pub use fault::Fault;
pub use fe_format::Format;
pub use fe_journal::{Blank, Unopened};
pub use keeper::Keeper;
pub use laws::{images_stand_for_one, stops_join, stores_are_told_apart};
