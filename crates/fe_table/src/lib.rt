//! Maps from numbers to values, in ascending order of the numbers, that allocate their memory in advance. The
//! server state has such maps of arrays and sessions (`docs/model.md`, "The state of the server").
#![tactic(auto)]

mod copied;
mod table;

pub use copied::Copied;
pub use table::Table;
