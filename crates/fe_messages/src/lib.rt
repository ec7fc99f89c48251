//! Between a connection and the front, which has the server's state, all that waits, and the connections with
//! their mails: a message becomes an event of the front or is refused, and a mail becomes a reply's frame
//! (`docs/model.md`, "Messages and mails").
#![tactic(auto)]

mod reply;
mod taking;
mod took;

pub use reply::Reply;
pub use taking::take_message;
pub use took::Took;
