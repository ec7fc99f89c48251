//! A session keeps its answers, so that a request sent again gets the answer that it had (`docs/model.md`,
//! "The state of the server").

use crate::answer::Answer;
use crate::request::Request;

/// What is kept of a request that completed: its content, its answer, and the place of its entry.
#[derive(Clone, Copy, PartialEq, Eq)]
pub struct Kept {
    pub request: Request,
    pub answer: Answer,
    /// The place of its entry: how many entries the history has before it.
    pub place: u64,
}
