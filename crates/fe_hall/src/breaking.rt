ghost use Rattle.std.specs.Prelude.{◌≡◌};
ghost use Rattle.fe_hall.specs.Commits.{end_of, end_of_post};
ghost use Rattle.fe_hall.specs.declared.commit_end.CommitEnd.{CommitEnd as Ends};

use crate::commit_end::CommitEnd;
use fe_history::Unnoted;
use fe_keeper::Fault;
use fe_shared::{Uncut, Unposted};
use std::marker::Model;

/// Why the committing side, the thread that stores, ends before all that is pending is posted. A batch of
/// entries is cut from the front, stored, noted in the history and posted to the connections
/// (`ARCHITECTURE.md`, "Threads"); one of these failed, or a checkpoint did. `Strange` is an end that shows a
/// mistake of the program, and `Spent` one because a book of the hall is full. Contracts see the end alone.
#[derive(Drop)]
pub(crate) struct Break {
    end: CommitEnd,
}

impl Model for Break {
    ghost use Rattle.fe_hall.specs.declared.commit_end.CommitEnd.{CommitEnd};

    ghost Value = { CommitEnd };

    ghost view = { λ b. b.end };
}

impl Break {
    /// The batch was not stored: a device call failed, now or earlier, memory was short, or the keeper found
    /// that the batch does not follow its state. Or a call of a checkpoint failed.
    pub(crate) fn of_store(fault: Fault) -> Break
        ensures { result ≡ end_of fault }
    {
        let end = match fault {
            Fault::Mismatch { .. } => CommitEnd::Strange,
            _ => CommitEnd::Store(fault),
        };
        Break { end }
    }

    /// No batch could be cut.
    pub(crate) fn of_cut(_why: Uncut) -> Break
        ensures { result ≡ Ends.Strange }
    {
        Break {
            end: CommitEnd::Strange,
        }
    }

    /// The batch could not be noted in the history.
    pub(crate) fn of_note(_why: Unnoted) -> Break
        ensures { result ≡ Ends.Strange }
    {
        Break {
            end: CommitEnd::Strange,
        }
    }

    /// The batch could not be posted.
    pub(crate) fn of_post(why: Unposted) -> Break
        ensures { result ≡ end_of_post why }
    {
        let end = match why {
            Unposted::Full(_) => CommitEnd::Spent,
            Unposted::Strange(_) => CommitEnd::Strange,
        };
        Break { end }
    }

    /// How the side ends.
    pub(crate) fn end(&self) -> CommitEnd
        ensures { result ≡ self.now }
    {
        self.end
    }
}
