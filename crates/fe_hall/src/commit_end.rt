//! Part of the hall's committing thread, which cuts pending entries into batches, stores and posts them
//! (`ARCHITECTURE.md`, "Threads").

use fe_keeper::Fault;

/// Why the committing side of a hall ended.
#[derive(Clone, Copy, PartialEq, Eq)]
pub enum CommitEnd {
    /// The hall was stopped, and all that was pending is stored and posted.
    Stopped,
    /// The store is at fault: `Device`, `NoMemory` for a batch, or `Failed` if it had failed before.
    Store(Fault),
    /// Only a mistake of the program ends it so: a batch does not continue what is stored, could not be cut
    /// or noted in the history, or is not the one that is out (cut, and not posted).
    Strange,
    /// The hall's count of mails, one of its books, has no room for those of the last batch, which is stored
    /// and not posted.
    Spent,
}
