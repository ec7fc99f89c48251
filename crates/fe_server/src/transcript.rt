//! What the socket of a connection received and was sent, and what its two sides did, for clauses alone
//! (`docs/proved.md`, "Server").

use crate::byte_log::ByteLog;
use fe_hall::{CallSeat, MailSeat, ReadEnd, Receipt, WriteEnd};
use fe_wire::ClientMessage;
use std::collections::LinkedList;
use std::marker::Brand;
use std::snapshot::Snapshot;

/// What the socket of a connection received and was sent, and what its two sides did. The program makes none:
/// only clauses speak of it.
pub struct Transcript {
    conn: u64,
    received: ByteLog,
    sent: ByteLog,
    /// The seat of the read side, the list of messages that it sent, and how it ended.
    calls: Snapshot<CallSeat<Brand>>,
    list: LinkedList<ClientMessage>,
    read_end: ReadEnd,
    /// The seat of the write side, its receipts, and how it ended.
    mails: Snapshot<MailSeat<Brand>>,
    receipts: LinkedList<Receipt>,
    write_end: WriteEnd,
}
