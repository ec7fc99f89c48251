//! What a decoder gives for a piece of a client's stream (`docs/model.md`, "Frames").

use crate::client_message::ClientMessage;

/// The result of decoding a piece of the stream.
#[derive(Drop)]
pub struct Fed {
    /// The messages whose last byte was in the piece, in the order of the stream.
    pub messages: Vec<ClientMessage>,
    /// The bad frame, if the stream has come to one; no messages follow it.
    pub fault: Option<BadFrame>,
}

/// A frame outside the grammar (`docs/formats.md`, "Frames").
#[derive(Clone, Copy, PartialEq, Eq)]
pub struct BadFrame {
    /// The offset of its first byte in the stream, at most 2^64 - 1: offsets beyond that stay there.
    pub offset: u64,
}
