//! Part of a hall's account: which answers were handed out (`docs/headline.md`, "Every acknowledged answer").

ghost use Rattle.std.specs.Prelude.{◌≡◌};
ghost use Rattle.fe_history.specs.Receipts.{receipt_of};

use fe_front::Mail;
use fe_state::Answer;

/// The record of an answer that the write side of a connection, its writing thread, took for its client.
#[derive(Clone, Copy, PartialEq, Eq)]
pub struct Receipt {
    /// The number of the connection to which it went.
    pub conn: u64,
    pub session: u64,
    /// The number of the request, in its session.
    pub number: u64,
    pub answer: Answer,
    /// The place of the answer's entry in the history: how many entries come before it.
    pub place: u64,
}

impl Receipt {
    /// The receipt of a mail to a connection, if the mail is an answer.
    pub fn of(conn: u64, mail: &Mail) -> Option<Receipt>
        ensures { result ≡ receipt_of conn mail.now }
    {
        match mail {
            Mail::Answer {
                session,
                number,
                answer,
                place,
            } => Some(Receipt {
                conn,
                session: *session,
                number: *number,
                answer: *answer,
                place: *place,
            }),
            _ => None,
        }
    }
}
