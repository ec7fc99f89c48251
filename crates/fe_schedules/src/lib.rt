//! Schedules: lines that are run one after the other over a store in memory, and what they print
//! (`docs/schedules.md`).
#![tactic(auto)]

mod fault;
mod line;
mod machine;
mod printed_reply;
mod reading;
mod run;
mod schedule;

pub use fault::ScheduleFault;
pub use fe_journal::DEVICE_BYTES;
pub use schedule::run_schedule;
