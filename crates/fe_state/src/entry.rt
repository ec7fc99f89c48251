//! The entries of the server's history, and which of them store format 1 has room for (`docs/model.md`, "The
//! state of the server").

ghost use Rattle.std.specs.Prelude.{◌≡◌};
ghost use Rattle.fe_state.specs.Format.{request_fits_format_1, entry_fits_format_1};

use crate::answer::Answer;
use crate::request::Request;

/// A step of the history: what was done to the state, and, for a request, the answer that it got.
#[derive(Clone, Copy, PartialEq, Eq)]
pub enum Entry {
    /// A connection attached the session, and gets its replies from then on. The session has this floor.
    Attached {
        session: u64,
        floor: u64,
    },
    /// The session ended, and nothing is kept for it any more.
    Closed {
        session: u64,
    },
    /// The floor of the session, the least number of its window, is this one from then on. It is not lower
    /// than before.
    Settled {
        session: u64,
        floor: u64,
    },
    /// The session's request of that number completed with the answer.
    Finished {
        session: u64,
        number: u64,
        request: Request,
        answer: Answer,
    },
}

impl Entry {
    /// Whether store format 1 has a record for the entry. It has none for a request that must not
    /// wait, the answer `NotNow`, or a name of more than 16 bytes.
    pub fn fits_format_1(&self) -> bool
        ensures { result ≡ entry_fits_format_1 self.now }
    {
        match self {
            Entry::Finished {
                request,
                answer,
                ..
            } => request_fits(request) && *answer != Answer::NotNow,
            _ => true,
        }
    }
}

fn request_fits(request: &Request) -> bool
    ensures { result ≡ request_fits_format_1 request.now }
{
    match request {
        Request::Create { name, .. } | Request::Find { name } => name.fits_format_1(),
        Request::Remove { .. } => true,
        Request::Access { no_wait, .. } => !*no_wait,
    }
}
