//! What shows that a side's thread does not hold the lock of its hall (`ARCHITECTURE.md`, "Threads").

use fe_history::{StoreSeat, Tally};

/// A thread of a side that does not hold the lock. A hold borrows it for as long as it lives, and each call
/// that may wait, read or write asks for it: so none of them compiles in a hold. A connection's side gets one
/// as it begins, for its seat. Nothing keeps the committing side from making another while it has the store's
/// seat.
#[derive(Drop)]
pub struct Free(());

impl Free {
    /// One for the thread of a side that begins.
    pub(crate) fn of_side() -> Free {
        Free(())
    }

    /// One for the committing side, which has this seat.
    pub fn of_committing<M: Tally>(_seat: &StoreSeat<M>) -> Free {
        Free(())
    }
}
