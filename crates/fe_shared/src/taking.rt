//! Part of the hall's answers to a connection's write side, the thread that writes (`docs/model.md`, "The
//! hall").

use fe_front::Mail;

/// What a look into a connection's box, its mails that wait to go out, found.
#[derive(Drop)]
pub enum Taking {
    /// A mail was taken. `more` says whether more are in the box.
    Mail { mail: Mail, more: bool },
    /// The connection is not connected.
    Gone,
    /// The hall is stopped, and the box is empty.
    Stopped,
    /// The book, or count, of the mails that were taken is full, and the box is empty.
    Spent,
}
