//! The end of a hall's committing side, the thread that stores. It is made only from values that show why
//! (`docs/proved.md`, "Server").

ghost use Rattle.std.specs.Prelude.{◌≡◌};
ghost use Rattle.fe_hall.specs.declared.commit_end.CommitEnd.TheVariants.{Stopped};

use crate::breaking::Break;
use crate::commit_end::CommitEnd;
use fe_shared::{AllDurable, HasStopped};
use std::marker::Model;

/// The end of a committing side, whose hall is stopped. Contracts see why it ended.
#[derive(Drop)]
pub struct Ended {
    end: CommitEnd,
}

impl Model for Ended {
    ghost use Rattle.fe_hall.specs.declared.commit_end.CommitEnd.{CommitEnd};

    ghost Value = { CommitEnd };

    ghost view = { λ e. e.end };
}

impl Ended {
    /// The hall was stopped, and nothing is left to store.
    pub(crate) fn stopped(_all: AllDurable) -> Ended
        ensures { result ≡ Stopped }
    {
        Ended {
            end: CommitEnd::Stopped,
        }
    }

    /// The side ended for this reason, and stopped the hall.
    pub(crate) fn broken(why: Break, _stopped: HasStopped) -> Ended
        ensures { result ≡ why }
    {
        Ended { end: why.end() }
    }

    /// Why the side ended.
    pub fn end(&self) -> CommitEnd
        ensures { result ≡ self.now }
    {
        self.end
    }
}
