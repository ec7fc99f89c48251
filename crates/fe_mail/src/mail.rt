//! Mails, one kind for each kind of reply (`docs/formats.md`, "Replies"), and the one that an entry of the
//! history brings (`docs/model.md`, "Mails, connections and books").

ghost use Rattle.std.specs.Prelude.{◌≡◌};
ghost use Rattle.fe_mail.specs.Connections.{mail_of, session_of};

use crate::refusal::Refusal;
use crate::report_text::ReportText;
use fe_state::{Answer, Entry};

/// A message from the server to a connection.
#[derive(Drop)]
pub enum Mail {
    /// The session was attached. Its floor, the least number of its window, was this then.
    Welcome {
        session: u64,
        floor: u64,
    },
    /// The session's request with this number completed; its entry has this place in the history.
    Answer {
        session: u64,
        number: u64,
        answer: Answer,
        place: u64,
    },
    /// The request with this number no longer waits.
    Withdrawn {
        number: u64,
    },
    /// A settle set the session's floor to this.
    Settled {
        floor: u64,
    },
    /// The session ended.
    Goodbye {
        session: u64,
    },
    /// A message was refused. The number is that of the call or cancel, the session of an attach, the floor
    /// of a settle, or 0 for a bye or a report.
    Refused {
        number: u64,
        refusal: Refusal,
    },
    /// The text of a report that the connection asked for.
    Report(ReportText),
}

impl Mail {
    /// The mail for the entry at this place.
    pub fn of(entry: &Entry, place: u64) -> Mail
        ensures { result ≡ mail_of entry.now place }
    {
        match *entry {
            Entry::Attached { session, floor } => Mail::Welcome { session, floor },
            Entry::Closed { session } => Mail::Goodbye { session },
            Entry::Settled { floor, .. } => Mail::Settled { floor },
            Entry::Finished {
                session,
                number,
                answer,
                ..
            } => Mail::Answer {
                session,
                number,
                answer,
                place,
            },
        }
    }
}

/// The session that the entry belongs to.
pub fn session_of(entry: &Entry) -> u64
    ensures { result ≡ session_of entry.now }
{
    match *entry {
        Entry::Attached { session, .. } => session,
        Entry::Closed { session } => session,
        Entry::Settled { session, .. } => session,
        Entry::Finished { session, .. } => session,
    }
}
