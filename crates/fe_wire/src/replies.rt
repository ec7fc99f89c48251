//! Reading the server's replies from their frames (`docs/formats.md`, "Frames").

ghost use Rattle.std.specs.Prelude.{◌≡◌, Some, IfOk, IfSome, OnErr};
ghost use Rattle.fe_wire.specs.Spelling.{reply_spelling, ReplyFits, IsReport};
ghost use Rattle.fe_wire.specs.Reading.{ReadsAs};
ghost use Rattle.fe_wire.specs.within.Replies.{answered_of, refused_of, report_of, reply_of_kind, parts_of};
ghost use Rattle.fe_wire.specs.declared.server_message.ServerMessage.{ServerMessage as Reply};

use crate::fields::{ended, number_of, two_numbers_of};
use crate::kinds;
use crate::server_message::ServerMessage;
use fe_codes::answer_of;
use fe_fields::{next_byte, next_u32, next_u64};
use fe_mail::{REPORT_BYTES, ReportText};
use fe_memory::OutOfMemory;
use std::alloc::Global;

#[tactic(auto, unfolding(crate::specs::within::Replies::answered_of))]
fn answered_of(body: &[u8]) -> Option<ServerMessage>
    ensures { result ≡ answered_of body.now }
{
    let (number, rest) = next_u64(body)?;
    let (code, rest) = next_byte(rest)?;
    let (value, rest) = next_u64(rest)?;
    let (length, rest) = next_u32(rest)?;
    let answer = answer_of(code, value, length)?;
    ended(rest, ServerMessage::Answer { number, answer })
}

#[tactic(auto, unfolding(crate::specs::within::Replies::refused_of))]
fn refused_of(body: &[u8]) -> Option<ServerMessage>
    ensures { result ≡ refused_of body.now }
{
    let (number, rest) = next_u64(body)?;
    let (code, rest) = next_byte(rest)?;
    if code < 1 || code > 10 {
        return None;
    }
    ended(rest, ServerMessage::Refused { number, code })
}

/// The reply that a frame with this kind and body spells, or `None` if it spells none or the kind is that of
/// a report.
#[tactic(auto, unfolding(crate::specs::within::Replies::reply_of_kind))]
fn reply_of_kind(kind: u8, body: &[u8]) -> Option<ServerMessage>
    ensures { result ≡ reply_of_kind kind body.now }
{
    match kind {
        kinds::WELCOME => {
            let (session, floor) = two_numbers_of(body)?;
            Some(ServerMessage::Welcome { session, floor })
        }
        kinds::ANSWER => answered_of(body),
        kinds::WITHDRAWN => {
            let number = number_of(body)?;
            Some(ServerMessage::Withdrawn { number })
        }
        kinds::SETTLED => {
            let floor = number_of(body)?;
            Some(ServerMessage::Settled { floor })
        }
        kinds::GOODBYE => {
            let session = number_of(body)?;
            Some(ServerMessage::Goodbye { session })
        }
        kinds::REFUSED => refused_of(body),
        _ => None,
    }
}

/// The report with this text, or `None` if it is not 1 to `REPORT_BYTES` bytes of UTF-8.
fn report_of(alloc: Global, body: &[u8]) -> Result<Option<ServerMessage>, OutOfMemory>
    ensures value { IfOk result (λ reply. reply ≡ report_of body.now) }
    ensures memory { OnErr result (ReplyFits (Reply.Report body.now)) }
{
    if body.is_empty() || body.len() > REPORT_BYTES {
        return Ok(None);
    }
    let Ok(text) = str::from_utf8(body) else {
        return Ok(None);
    };
    let text = String::from_str(alloc, text)?;
    Ok(Some(ServerMessage::Report(ReportText::new(text))))
}

/// The kind and the body, if the bytes are exactly one frame.
#[tactic(auto, unfolding(crate::specs::within::Replies::parts_of))]
fn parts_of(frame: &[u8]) -> Option<(u8, &[u8])>
    ensures { ReadsAs (λ x. (x.0, x.1.now)) result (parts_of frame.now) }
{
    let (length, rest) = next_u32(frame)?;
    if length as usize == rest.len() {
        next_byte(rest)
    } else {
        None
    }
}

/// The reply that exactly one whole frame spells, or `None` if it spells none. Fails only if memory for a
/// report's text runs out.
pub fn read_reply(alloc: Global, frame: &[u8]) -> Result<Option<ServerMessage>, OutOfMemory>
    // What is read has this frame.
    ensures found { IfOk result (λ reply. IfSome reply (λ m. ReplyFits m × (frame.now ≡ reply_spelling m))) }
    // Every frame in the grammar is read, so `None` means that the bytes are outside it.
    ensures only { (m : Reply) → ReplyFits m → frame.now ≡ reply_spelling m
        → IfOk result (λ reply. reply ≡ Some m) }
    // Memory can run out only for the text of a report.
    ensures memory { OnErr result (IsReport frame.now) }
{
    let Some((kind, body)) = parts_of(frame) else {
        return Ok(None);
    };
    if kind == kinds::REPORT {
        return report_of(alloc, body);
    }
    Ok(reply_of_kind(kind, body))
}
