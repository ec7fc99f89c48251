//! Part of the seat of a connection's read side, its reading thread (`docs/model.md`, "The hall").

use fe_wire::ClientMessage;
use std::snapshot::Snapshot;

/// The messages that were taken for a connection, in their order. The list exists in proofs alone: the code
/// keeps no message of it.
#[derive(Drop)]
pub enum MessageLog {
    Empty,
    Then(Snapshot<MessageLog>, Snapshot<ClientMessage>),
}
