/// An attachment: what is known of a session that exists or is closing (`docs/model.md`, "Waiting requests").
#[derive(Clone, Copy, PartialEq, Eq)]
pub struct Attachment {
    /// The connection that has the session, if one has it.
    pub holder: Option<u64>,
    /// Whether the session is being ended: its *closed* entry was made, and is not yet stored and posted
    /// (`docs/model.md`, "The front").
    pub closing: bool,
}
