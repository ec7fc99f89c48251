//! A user who waits for each reply before typing the next line, and the server that replies.

use fe_client::{Broken, Streams, converse};
use fe_memory::OutOfMemory;
use fe_text::StreamFault;
use std::alloc::Global;
use std::process::Abort;

// The codes of events in the log. Printed text is logged as it is: it has no byte above 127.
const READ: u8 = 128;

const SENT: u8 = 129;

const RECEIVED: u8 = 130;

const FLUSHED: u8 = 131;

/// What a user types, what a server replies, and a log of the events in order. Each call reads, sends or
/// receives one byte.
#[derive(Drop)]
struct Dialogue<'i, 'r> {
    /// The input that is not typed yet.
    input: &'i [u8],
    /// Whether the reply to the last line typed is still to be written and flushed.
    is_waiting: bool,
    /// Whether something was written after the last flush.
    has_written: bool,
    /// The replies that are not received yet.
    replies: &'r [u8],
    has_failed: bool,
    log: Vec<u8>,
}

impl Dialogue<'_, '_> {
    ghost use Rattle.std.specs.Prelude.{◌≡◌, ◌++◌, is_ok, if◌then◌else◌};

    /// Appends an event to the log.
    fn happened(&mut self, code: &[u8]) -> Result<(), OutOfMemory>
        ensures { self.new.log.items ≡ (if is_ok result then self.old.log.items
            ++ code.now else self.old.log.items) }
    {
        self.log.extend_from_slice(code)?;
        Ok(())
    }
}

impl Streams for Dialogue<'_, '_> {
    ghost use Rattle.std.specs.Prelude.{◌≡◌, true};
    ghost use Rattle.test_sockets.specs.Scripts.{Follows, Notes, follows_none, follows_both};

    ghost leads = { λ s events t. Follows s.log.items events t.log.items };

    ghost because = { λ s. Notes (s.has_failed ≡ true) };

    ghost stays = { λ s. follows_none s.log.items };

    ghost joins = { λ s t u a b p q. follows_both s.log.items t.log.items u.log.items a b p q };

    ghost begins = { λ s. tt };

    ghost keeps_reads = { λ s t events count happened reads. reads };

    /// The user types the next line only once the reply to the one before can be seen.
    fn read(&mut self, buffer: &mut [u8]) -> Result<Option<usize>, StreamFault> {
        if self.is_waiting {
            return Err(StreamFault::Input);
        }
        let Some((byte, left)) = self.input.split_first() else {
            return match self.happened(&[READ, 0]) {
                Ok(()) => Ok(Some(0)),
                Err(error) => Err(StreamFault::Memory(error)),
            };
        };
        if let Err(error) = self.happened(&[READ, 1, *byte]) {
            return Err(StreamFault::Memory(error));
        }
        buffer[0] = *byte;
        self.is_waiting = *byte == b'\n';
        self.input = left;
        Ok(Some(1))
    }

    fn send(&mut self, bytes: &[u8]) -> Result<usize, Broken> {
        match self.happened(&[SENT, bytes[0]]) {
            Ok(()) => Ok(1),
            Err(_) => {
                self.has_failed = true;
                Err(Broken)
            }
        }
    }

    fn receive(&mut self, buffer: &mut [u8]) -> Result<usize, Broken> {
        let Some((byte, left)) = self.replies.split_first() else {
            self.has_failed = true;
            return Err(Broken);
        };
        if self.happened(&[RECEIVED, *byte]).is_err() {
            self.has_failed = true;
            return Err(Broken);
        }
        buffer[0] = *byte;
        self.replies = left;
        Ok(1)
    }

    fn write(&mut self, text: &[u8]) -> Result<(), StreamFault> {
        if let Err(error) = self.happened(text) {
            return Err(StreamFault::Memory(error));
        }
        self.has_written = true;
        Ok(())
    }

    fn flush(&mut self) -> Result<(), StreamFault> {
        if let Err(error) = self.happened(&[FLUSHED]) {
            return Err(StreamFault::Memory(error));
        }
        if self.has_written {
            self.is_waiting = false;
            self.has_written = false;
        }
        Ok(())
    }
}

/// Appends one event of this kind for each byte.
fn log_each(log: &mut Vec<u8>, kind: &[u8], bytes: &[u8]) -> Result<(), OutOfMemory> {
    for byte in bytes {
        log.extend_from_slice(kind)?;
        log.push(*byte)?;
    }
    Ok(())
}

/// Appends the events for a line, its message, the reply and the printed text, in this order.
fn log_turn(log: &mut Vec<u8>, line: &[u8], turn: [&[u8]; 3]) -> Result<(), OutOfMemory> {
    let [message, reply, text] = turn;
    log_each(log, &[READ, 1], line)?;
    log_each(log, &[SENT], message)?;
    log_each(log, &[RECEIVED], reply)?;
    log.extend_from_slice(text)?;
    Ok(log.push(FLUSHED)?)
}

/// The events for `attach 7` and `bye`.
fn transcript(alloc: Global) -> Result<Vec<u8>, OutOfMemory> {
    let mut log = Vec::new(alloc);
    log_turn(&mut log, b"attach 7\n", [ATTACH, WELCOME, b"welcome 7 1\n"])?;
    log_turn(&mut log, b"bye\n", [BYE, GOODBYE, b"goodbye 7\n"])?;
    log.extend_from_slice(&[READ, 0])?;
    Ok(log)
}

const ATTACH: &[u8] = b"\0\0\0\x09\x01\0\0\0\0\0\0\0\x07";

const WELCOME: &[u8] = b"\0\0\0\x11\x41\0\0\0\0\0\0\0\x07\0\0\0\0\0\0\0\x01";

const BYE: &[u8] = b"\0\0\0\x01\x08";

const GOODBYE: &[u8] = b"\0\0\0\x09\x45\0\0\0\0\0\0\0\x07";

#[test]
fn each_reply_is_seen_before_the_next_line(rt: HostRuntime) {
    let replies =
        b"\0\0\0\x11\x41\0\0\0\0\0\0\0\x07\0\0\0\0\0\0\0\x01\0\0\0\x09\x45\0\0\0\0\0\0\0\x07";
    let mut dialogue = Dialogue {
        input: b"attach 7\nbye\n",
        is_waiting: false,
        has_written: false,
        replies,
        has_failed: false,
        log: Vec::new(rt.alloc()),
    };
    let ended = converse(rt.alloc(), &mut dialogue);
    let expected = transcript(rt.alloc()).ok().expect(&rt, "memory");
    assert!(&rt; ended.is_ok() && dialogue.log.as_slice() == expected.as_slice());
}
