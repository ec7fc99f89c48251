//! Writing and reading big-endian fields of fixed width, as frames, records and images have them
//! (`docs/formats.md`).
#![tactic(auto)]

mod fields;
mod reading;

pub use fields::{Fields, u32_bytes, u64_bytes};
pub use reading::{next_byte, next_bytes, next_u32, next_u64, u32_at, u64_at};
