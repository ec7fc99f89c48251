//! The report: a text that says what waits in a front (`docs/model.md`, "The report").
#![tactic(auto)]

mod reporting;
mod rows;
mod text;

pub use reporting::report;
