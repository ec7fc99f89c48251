//! What an undo log has of each entry, a step of the history, to undo it (`docs/model.md`, "The state of the
//! server").

ghost use Rattle.std.specs.Prelude.{◌≡◌};
ghost use Rattle.fe_state.specs.UndoLog.{answers_of};

use crate::change::Change;

/// What an entry changed of the state, in the session that it names and in the arrays. The answers that it
/// dropped are in the log.
#[derive(Drop)]
pub struct Undo {
    pub session: u64,
    pub session_change: SessionChange,
    pub change: Change,
}

/// What an entry changed of its session.
#[derive(Clone, Copy)]
pub enum SessionChange {
    Same,
    /// The session is new.
    Opened,
    /// The session is gone. It had this floor, and this many answers.
    Closed { floor: u64, answers: usize },
    /// The floor was this one, and this many answers were kept below the new one.
    Settled { floor: u64, answers: usize },
    /// What is kept for this number is new.
    Kept(u64),
}

impl SessionChange {
    /// How many answers were dropped.
    pub fn answers(&self) -> usize
        ensures { result ≡ answers_of self.now }
    {
        match self {
            SessionChange::Closed { answers, .. } | SessionChange::Settled { answers, .. } => {
                *answers
            }
            _ => 0,
        }
    }
}
