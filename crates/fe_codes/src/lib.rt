//! The codes of tags, operations and answers, used in records and frames (`docs/formats.md`, "Codes").
#![tactic(auto)]

mod answer;
mod laws;
mod op;
mod tag;

pub use answer::{answer_fields, answer_of};
pub use laws::{answers_are_their_codes, ops_are_their_codes, tags_are_their_codes};
pub use op::{op_code, op_of, operand_of};
pub use tag::{tag_code, tag_of};
