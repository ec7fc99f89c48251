//! The waiting requests, each on the list of its word and on the list of its session (`docs/model.md`,
//! "Waiting requests").
#![tactic(auto)]

mod chains;
mod laws;
mod row;
mod waits;
mod word_chains;

pub use laws::limits_are;
pub use row::Row;
pub use waits::Waits;
