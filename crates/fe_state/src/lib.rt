//! The state of the server, arrays of words and sessions with the answers kept (`docs/model.md`, "The state
//! of the server"). An entry is one step of its history; its place is the number of entries before it. An
//! undo log takes entries back.
#![tactic(auto)]

mod answer;
mod array;
mod arrays;
mod batch;
mod bounds;
mod change;
mod directory;
mod dropped;
mod effect;
mod entry;
mod kept;
mod kept_answers;
mod laws;
mod name;
mod naming;
mod request;
mod session;
mod sessions;
mod state;
mod undo;
mod undo_log;
mod words;

pub use answer::Answer;
pub use batch::{Batch, Entries};
pub use bounds::{
    ARRAYS, BATCH_ENTRIES, EVENT_ENTRIES, GREATEST_FLOOR, GREATEST_PLACE, NAME_BYTES, SESSIONS,
    WAITING, WINDOW, WORDS,
};
pub use effect::Effect;
pub use entry::Entry;
pub use kept::Kept;
pub use kept_answers::KeptAnswers;
pub use laws::{
    entry_limits_are, examples_hold, histories_join_and_cut, ids_never_return, limits_are,
    limits_are_kept, limits_follow, numbers_finish_once, other_words_stay,
};
pub use name::Name;
pub use naming::named;
pub use request::Request;
pub use state::{Illegal, State};
pub use undo_log::UndoLog;
