//! Writing replies as frames, the bytes that go over a connection (`docs/formats.md`, "Frames").

ghost use Rattle.std.specs.Prelude.{◌≡◌, ◌+◌, ◌<◌, ◌++◌, length, OnOk, OnErr, vec_len, vec_capacity};
ghost use Rattle.fe_wire.specs.Spelling.{reply_spelling, ReplyFits, HasRefusalCode};

use crate::frame::{Frame, frame_of};
use crate::kinds;
use crate::server_message::ServerMessage;
use fe_codes::answer_fields;
use fe_memory::OutOfMemory;
use fe_state::Answer;

fn welcome_frame(session: u64, floor: u64) -> Frame
    ensures { result ≡ reply_spelling (ServerMessage.Welcome session floor) }
{
    let mut frame = frame_of(17, kinds::WELCOME);
    frame.put_u64(session);
    frame.put_u64(floor);
    frame
}

fn answer_frame(number: u64, answer: Answer) -> Frame
    ensures spelled { result ≡ reply_spelling (ServerMessage.Answer number answer) }
    ensures fits { ReplyFits (ServerMessage.Answer number answer) }
{
    let (code, value, length) = answer_fields(answer);
    let mut frame = frame_of(22, kinds::ANSWER);
    frame.put_u64(number);
    frame.put_u8(code);
    frame.put_u64(value);
    frame.put_u32(length);
    frame
}

fn withdrawn_frame(number: u64) -> Frame
    ensures { result ≡ reply_spelling (ServerMessage.Withdrawn number) }
{
    let mut frame = frame_of(9, kinds::WITHDRAWN);
    frame.put_u64(number);
    frame
}

fn settled_frame(floor: u64) -> Frame
    ensures { result ≡ reply_spelling (ServerMessage.Settled floor) }
{
    let mut frame = frame_of(9, kinds::SETTLED);
    frame.put_u64(floor);
    frame
}

fn goodbye_frame(session: u64) -> Frame
    ensures { result ≡ reply_spelling (ServerMessage.Goodbye session) }
{
    let mut frame = frame_of(9, kinds::GOODBYE);
    frame.put_u64(session);
    frame
}

fn refused_frame(number: u64, code: u8) -> Frame
    ensures { result ≡ reply_spelling (ServerMessage.Refused number code) }
{
    let mut frame = frame_of(10, kinds::REFUSED);
    frame.put_u64(number);
    frame.put_u8(code);
    frame
}

/// Appends the frame of a reply. The code of a refusal must be 1 to 10. Fails only if the vector has no spare
/// room for it and memory runs out; then nothing is appended.
pub fn put_reply(out: &mut Vec<u8>, message: &ServerMessage) -> Result<(), OutOfMemory>
    requires { HasRefusalCode message.now }
    ensures ok { OnOk result (out.new.items ≡ out.old.items ++ reply_spelling message.now) }
    ensures err { OnErr result (out.new.items ≡ out.old.items) }
    ensures full { OnErr result (vec_capacity out.old
        < vec_len out.old + length (reply_spelling message.now)) }
    // The reply is in the grammar, so it can be read again.
    ensures fits { ReplyFits message.now }
{
    let frame = match message {
        ServerMessage::Answer { number, answer } => answer_frame(*number, *answer),
        ServerMessage::Welcome { session, floor } => welcome_frame(*session, *floor),
        ServerMessage::Withdrawn { number } => withdrawn_frame(*number),
        ServerMessage::Settled { floor } => settled_frame(*floor),
        ServerMessage::Goodbye { session } => goodbye_frame(*session),
        ServerMessage::Refused { number, code } => refused_frame(*number, *code),
        // The text goes directly to `out`, after the length and the kind, instead of through a `Frame`.
        ServerMessage::Report(report) => {
            let text = report.as_str().as_bytes();
            let head = frame_of(text.len() as u32 + 1, kinds::REPORT);
            let head = head.bytes();
            out.reserve(head.len() + text.len())?;
            out.extend_from_slice(head)?;
            out.extend_from_slice(text)?;
            return Ok(());
        }
    };
    out.extend_from_slice(frame.bytes())?;
    Ok(())
}
