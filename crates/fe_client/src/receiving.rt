//! Sending all of some bytes to a server, and receiving replies, each in a frame: length, kind and body
//! (`docs/formats.md`, "Frames").

ghost use Rattle.std.specs.Prelude.{◌≡◌, ◌+◌, ◌≤◌, ℕ, List, length, IfOk, IfErr, OnOk};
ghost use Rattle.fe_wire.specs.Spelling.{reply_spelling, ReplyFits};
ghost use Rattle.fe_wire.specs.Stream.{length_field};
ghost use Rattle.fe_client.specs.Events.{sent, received};
ghost use Rattle.fe_client.specs.Ends.{IsFrontOf, Unanswered, Unreceived, Unsent};

use crate::fault::CallFault;
use crate::streams::Streams;
use byteorder::{BigEndian, ByteOrder};
use fe_text::READS;
use fe_wire::{LENGTH_BYTES, ServerMessage, read_reply};
use std::alloc::Global;

/// The greatest length that a frame from the server gives for its kind and body, which is that of the longest
/// report.
const GREATEST_LENGTH: usize = 262_145;

/// The number of bytes of the longest frame from the server.
pub(crate) const REPLY_BYTES: usize = LENGTH_BYTES + GREATEST_LENGTH;

/// Sends all of these bytes.
pub(crate) fn send_all<E: Streams>(streams: &mut E, bytes: &[u8]) -> Result<(), CallFault>
    ensures ok { OnOk result (E.leads streams.old (sent bytes.now) streams.new) }
    ensures front { (front : List ℕ) × IsFrontOf front bytes.now
        × E.leads streams.old (sent front) streams.new }
    ensures err { IfErr result (λ end. Unsent end (E.because streams.new)) }
{
    let mut done = 0;
    while done < bytes.len() {
        match streams.send(&bytes[done..]) {
            Ok(count) => done += count,
            Err(_) => return Err(CallFault::Socket),
        }
    }
    Ok(())
}

/// Receives bytes until the buffer is full. `reads` counts the reads of the connection.
fn receive_all<E: Streams>(
    streams: &mut E,
    buffer: &mut [u8],
    reads: &mut u64,
) -> Result<(), CallFault>
    ensures ok { OnOk result (E.leads streams.old (received buffer.new) streams.new) }
    ensures len { length buffer.new ≡ length buffer.old }
    // Each read brings a byte at least.
    ensures reads { OnOk result (reads.new ≤ reads.old + length buffer.new) }
    ensures err { IfErr result (λ end. (bytes : List ℕ) × E.leads streams.old (received bytes) streams.new
        × Unreceived end (E.because streams.new) reads.old bytes) }
{
    let mut done = 0;
    while done < buffer.len() {
        if *reads >= READS {
            return Err(CallFault::Input);
        }
        *reads += 1;
        match streams.receive(&mut buffer[done..]) {
            Ok(count) => done += count,
            Err(_) => return Err(CallFault::Socket),
        }
    }
    Ok(())
}

/// Receives the length of a frame's kind and body. The error is `Socket` also if that is 0, or above
/// `GREATEST_LENGTH`.
fn receive_length<E: Streams>(
    streams: &mut E,
    head: &mut [u8],
    reads: &mut u64,
) -> Result<usize, CallFault>
    requires head { length head.old ≡ 4 }
    ensures ok { OnOk result (E.leads streams.old (received head.new) streams.new) }
    ensures head { length head.new ≡ 4 }
    ensures length { IfOk result (λ count. count ≡ length_field head.new) }
    ensures few { IfOk result (λ count. count ≤ 262145) }
    ensures reads { OnOk result (reads.new ≤ reads.old + 4) }
    ensures err { IfErr result (λ end. (bytes : List ℕ) × E.leads streams.old (received bytes) streams.new
        × Unanswered end (E.because streams.new) reads.old bytes) }
{
    receive_all(streams, head, reads)?;
    let count = BigEndian::read_u32(head) as usize;
    if count == 0 || count > GREATEST_LENGTH {
        return Err(CallFault::Socket);
    }
    Ok(count)
}

/// Receives the next reply, whose frame goes to the front of `room`, a buffer for the longest frame. A frame
/// whose length is 0, or above that of the longest report, is bad as soon as its length has come; any other
/// is judged once it is whole.
pub(crate) fn receive_reply<E: Streams>(
    alloc: Global,
    streams: &mut E,
    room: &mut [u8],
    reads: &mut u64,
) -> Result<ServerMessage, CallFault>
    requires room { length room.old ≡ 262149 }
    ensures reply { IfOk result (λ reply. ReplyFits reply
        × E.leads streams.old (received (reply_spelling reply)) streams.new) }
    ensures room { length room.new ≡ 262149 }
    ensures reads { IfOk result (λ reply. reads.new ≤ reads.old + length (reply_spelling reply)) }
    ensures err { IfErr result (λ end. (bytes : List ℕ) × E.leads streams.old (received bytes) streams.new
        × Unanswered end (E.because streams.new) reads.old bytes) }
{
    let count = receive_length(streams, &mut room[..LENGTH_BYTES], reads)?;
    let end = LENGTH_BYTES + count;
    receive_all(streams, &mut room[LENGTH_BYTES..end], reads)?;
    match read_reply(alloc, &room[..end]) {
        Ok(Some(reply)) => Ok(reply),
        Ok(None) => Err(CallFault::Socket),
        Err(error) => Err(CallFault::Memory(error)),
    }
}
