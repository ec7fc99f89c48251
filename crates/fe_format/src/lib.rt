//! The two formats of a store, and the sizes in which they differ (`docs/model.md`, "The two formats").
#![tactic(auto)]

mod format;

pub use format::Format;
