//! Reading back the replies that a desk wrote as frames, for a schedule to print them (`docs/schedules.md`,
//! "Printed"). A frame is the bytes of a reply (`docs/formats.md`, "Replies").

ghost use Rattle.std.specs.Prelude.{◌≡◌, ◌<◌, ◌++◌, List, length, map, IfOk, IfSome, OnOk};
ghost use Rattle.std.specs.Option.{option_map};
ghost use Rattle.std.specs.List.{flat_map, AllByRecursion};
ghost use Rattle.fe_wire.specs.Spelling.{reply_spelling, ReplyFits};
ghost use Rattle.fe_wire.specs.declared.server_message.ServerMessage.{ServerMessage as Reply};
ghost use Rattle.fe_desk.specs.Messages.{AreReplies, outputs};
ghost use Rattle.fe_schedules.specs.within.Frames.{frame_at};
ghost use Rattle.fe_schedules.specs.Schedule.{ArePrintedReplies, printed_to};

use crate::printed_reply::PrintedReply;
use byteorder::{BigEndian, ByteOrder};
use fe_desk::Desk;
use fe_disk::MemoryDisk;
use fe_memory::OutOfMemory;
use fe_wire::{ServerMessage, read_reply};
use std::alloc::Global;

/// The first frame of the bytes and what follows it, if a whole one is there.
#[tactic(auto, unfolding(crate::specs::within::Frames::frame_at))]
fn first_frame(bytes: &[u8]) -> Option<(&[u8], &[u8])>
    ensures frame { option_map (λ p. (p.0.now, p.1.now)) result ≡ frame_at bytes.entry.now }
    ensures shorter { IfSome result (λ p. length p.1.now < length bytes.entry.now) }
{
    if bytes.len() < 4 {
        return None;
    }
    let (front, _) = bytes.split_at(4);
    let count = 4 + BigEndian::read_u32(front) as usize;
    if bytes.len() < count {
        return None;
    }
    Some(bytes.split_at(count))
}

/// The reply whose frame this is.
fn reply_in(alloc: Global, frame: &[u8]) -> Result<ServerMessage, OutOfMemory>
    requires { (reply : Reply) × ReplyFits reply × (frame.now ≡ reply_spelling reply) }
    ensures { (reply : Reply) → ReplyFits reply → frame.now ≡ reply_spelling reply
        → IfOk result (λ read. read ≡ reply) }
{
    match read_reply(alloc, frame)? {
        Some(reply) => Ok(reply),
        None => unreachable!(),
    }
}

/// Reads the replies to the connection in these frames.
fn read_replies(
    alloc: Global,
    conn: u64,
    frames: &[u8],
    printed_replies: &mut Vec<PrintedReply>,
) -> Result<(), OutOfMemory>
    requires { AreReplies frames.now }
    // Frames of replies are read as these, after what was there.
    ensures { (replies : List Reply) → AllByRecursion ReplyFits replies
        → frames.now ≡ flat_map reply_spelling replies
        → OnOk result (printed_replies.new.items
        ≡ printed_replies.old.items ++ map (printed_to conn) replies) }
{
    let mut rest = frames;
    while !rest.is_empty() {
        let Some((frame, others)) = first_frame(rest) else {
            unreachable!();
        };
        let reply = reply_in(alloc, frame)?;
        printed_replies.push(PrintedReply { conn, reply })?;
        rest = others;
    }
    Ok(())
}

/// Reads the replies that the desk wrote since its trace was cleared.
pub(crate) fn read_all(
    alloc: Global,
    desk: &Desk<MemoryDisk>,
    printed_replies: &mut Vec<PrintedReply>,
) -> Result<(), OutOfMemory>
    ensures { OnOk result (ArePrintedReplies (outputs desk.now.run_state) printed_replies.new.items) }
{
    printed_replies.clear();
    let ports = desk.trace().ports.as_slice();
    let mut from = 0;
    while let Some(at) = desk.next_written(from) {
        let port = &ports[at];
        read_replies(alloc, port.conn, port.written.as_slice(), printed_replies)?;
        from = at + 1;
    }
    Ok(())
}
