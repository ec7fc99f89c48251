use crate::mailbox::Mailbox;

/// A connection's session, and the box in which its mails wait (`docs/model.md`, "Mails, connections and
/// books").
#[derive(Drop)]
pub(crate) struct Connection {
    pub session: Option<u64>,
    pub mails: Mailbox,
}
