//! Handing clients' messages to the front (`docs/model.md`, "Messages and mails").

ghost use Rattle.std.specs.Prelude.{◌≡◌, List, IsTrue};
ghost use Rattle.fe_state.specs.declared.entry.Entry.{Entry};
ghost use Rattle.fe_front.specs.Front.{has_room};
ghost use Rattle.fe_front.specs.Steps.{mailed};
ghost use Rattle.fe_mail.specs.Connections.{session_on};
ghost use Rattle.fe_mail.specs.declared.mail.Mail.TheVariants as mails;
ghost use Rattle.fe_messages.specs.Taking.{Takes, Enters};
ghost use Rattle.fe_wire.specs.declared.client_message.ClientMessage.TheVariants as Message;

use crate::took::Took;
use fe_front::Front;
use fe_mail::{Refusal, ReportText};
use fe_report::report;
use fe_wire::ClientMessage;
use std::alloc::Global;

/// Hands a connection's message to the front, which has to have room for the entries of one event. If the
/// message is refused, the connection, if it is connected, gets a mail that says why, or is removed if its
/// box is full.
pub fn take_message(alloc: Global, front: &mut Front, conn: u64, message: ClientMessage) -> Took
    requires room { IsTrue (has_room front.old) }
    ensures taken { (es : List Entry) × Takes front.old conn message es front.new
        × Enters front.old es front.new }
    ensures took { result ≡ record {
      conn = conn;
      had = session_on front.old.connections conn;
      place = front.old.service.state.place;
      message = message;
    } }
{
    let place = front.state().place();
    let had = hand_over(alloc, front, conn, &message);
    Took::of(conn, had, place, message)
}

/// Hands a message to the front, and returns the session that the connection had before. The front tells
/// which session an event was for, so that it is looked up only for the other messages and for a refusal.
fn hand_over(alloc: Global, front: &mut Front, conn: u64, message: &ClientMessage) -> Option<u64>
    requires room { IsTrue (has_room front.old) }
    ensures taken { (es : List Entry) × Takes front.old conn message.now es front.new
        × Enters front.old es front.new }
    ensures had { result ≡ session_on front.old.connections conn }
{
    // From here on the proof has what is always true of the front (`docs/DECISIONS.md`, "Toolchain").
    let _ = front.state();
    match *message {
        ClientMessage::Attach { session } => {
            let had = front.connections().session_of(conn);
            if let Err(refusal) = front.attach(conn, session) {
                front.mail_refusal(conn, session, refusal);
            }
            had
        }
        ClientMessage::Call { number, request } => match front.call(conn, number, request) {
            Ok(call) => Some(call.session),
            Err(refusal) => refuse(front, conn, number, refusal),
        },
        ClientMessage::Cancel { number } => match front.cancel(conn, number) {
            Ok(session) => Some(session),
            Err(refusal) => refuse(front, conn, number, refusal),
        },
        ClientMessage::Settle { floor } => match front.settle(conn, floor) {
            Ok(session) => Some(session),
            Err(refusal) => refuse(front, conn, floor, refusal),
        },
        ClientMessage::Bye => match front.bye(conn) {
            Ok(session) => Some(session),
            Err(refusal) => refuse(front, conn, 0, refusal),
        },
        ClientMessage::Report => {
            let had = front.connections().session_of(conn);
            mail_report(alloc, front, conn);
            had
        }
    }
}

/// Mails a refusal, and returns the session of the connection.
fn refuse(front: &mut Front, conn: u64, number: u64, refusal: Refusal) -> Option<u64>
    ensures mailed { front.new ≡ mailed front.old conn (mails.Refused number refusal) }
    ensures had { result ≡ session_on front.old.connections conn }
{
    let had = front.connections().session_of(conn);
    front.mail_refusal(conn, number, refusal);
    had
}

/// Mails the report, or the refusal `NoMemory` if there is no memory for it.
fn mail_report(alloc: Global, front: &mut Front, conn: u64)
    ensures taken { (es : List Entry) × Takes front.old conn Message.Report es front.new
        × Enters front.old es front.new }
{
    match report(alloc, front) {
        Ok(text) => front.mail_text(conn, ReportText::new(text)),
        Err(error) => front.mail_refusal(conn, 0, Refusal::NoMemory(error)),
    }
}
