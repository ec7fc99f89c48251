//! What handing a message to the front returns (`docs/model.md`, "Messages and mails"). The front has the
//! server's state, all that waits, and the connections ("The front").

ghost use Rattle.std.specs.Prelude.{◌≡◌};

use fe_wire::ClientMessage;
use std::marker::Model;

/// Shows that this message of this connection was handed to a front, which took or refused it. Only
/// `take_message` makes one.
#[derive(Drop)]
pub struct Took {
    conn: u64,
    /// The session that the connection had before, if it had one.
    had: Option<u64>,
    /// The place that the front's state had before: that of the next entry.
    place: u64,
    message: ClientMessage,
}

impl Model for Took {
    ghost use Rattle.fe_messages.specs.Taking.{Took};

    ghost Value = { Took };

    ghost view = { λ t. record { conn = t.conn; had = t.had; place = t.place; message = t.message } };
}

impl Took {
    pub(crate) fn of(conn: u64, had: Option<u64>, place: u64, message: ClientMessage) -> Took
        ensures { result ≡ record { conn = conn; had = had; place = place; message = message } }
    {
        Took {
            conn,
            had,
            place,
            message,
        }
    }

    /// The number of the connection, the session that it had, the place before, and the message.
    pub fn into_parts(self) -> (u64, Option<u64>, u64, ClientMessage)
        ensures { result ≡ (self.conn, self.had, self.place, self.message) }
    {
        let Took {
            conn,
            had,
            place,
            message,
        } = self;
        (conn, had, place, message)
    }
}
