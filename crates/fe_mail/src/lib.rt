//! Mails, the messages from the server to connections; the boxes in which they wait; and the books, which
//! count calls and mails (`docs/model.md`, "Mails, connections and books").
#![tactic(auto)]

mod books;
mod connection;
mod connections;
mod laws;
mod mail;
mod mailbox;
mod refusal;
mod report_text;

pub use books::{Books, MOST_BOOKED};
pub use connections::Connections;
pub use laws::limits_are;
pub use mail::{Mail, session_of};
pub use mailbox::MAILS;
pub use refusal::Refusal;
pub use report_text::{REPORT_BYTES, ReportText};
