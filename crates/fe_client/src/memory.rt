//! A connection in memory, in place of that of `femem call` to a server (`docs/commands.md`, "Commands").

ghost use Rattle.std.specs.Prelude.{◌≡◌, ◌<◌, ◌≤◌, length};

use crate::connection::{Broken, Connection};
use std::alloc::Global;

/// A connection without a server: what the other end gives is fixed beforehand and is received in pieces, and
/// what is sent is only kept.
#[derive(Drop)]
pub struct MemoryConnection {
    answers: Vec<u8>,
    /// How many bytes of `answers` were received.
    next: usize,
    /// The most bytes that one `receive` gives.
    piece: usize,
    sent: Vec<u8>,
    /// Whether a `send` found no memory.
    has_failed: bool,
    ghost within: { next ≤ length answers.items },
    ghost some: { 0 < piece },
}

impl MemoryConnection {
    /// A connection whose other end gives these bytes, in pieces of at most this many. After them `receive`
    /// fails, and `send` goes on.
    pub fn new(alloc: Global, answers: Vec<u8>, piece: usize) -> MemoryConnection
        requires { 0 < piece }
    {
        MemoryConnection {
            answers,
            next: 0,
            piece,
            sent: Vec::new(alloc),
            has_failed: false,
        }
    }

    /// The bytes that were sent.
    pub fn sent(&self) -> &[u8]
        ensures { result.now ≡ self.now.sent.items }
    {
        self.sent.as_slice()
    }
}

impl Connection for MemoryConnection {
    ghost use Rattle.std.specs.Prelude.{◌≡◌, ◌⊎◌, Some, true, length, take};

    ghost sent = { λ c. Some c.sent.items };

    ghost received = { λ c. Some (take c.next c.answers.items) };

    ghost is_over = { λ c. (c.has_failed ≡ true) ⊎ (c.next ≡ length c.answers.items) };

    fn send(&mut self, bytes: &[u8]) -> Result<usize, Broken> {
        match self.sent.extend_from_slice(bytes) {
            Ok(()) => Ok(bytes.len()),
            Err(_) => {
                self.has_failed = true;
                Err(Broken)
            }
        }
    }

    fn receive(&mut self, buffer: &mut [u8]) -> Result<usize, Broken> {
        let left = self.answers.len() - self.next;
        if left == 0 {
            return Err(Broken);
        }
        let count = buffer.len().min(self.piece).min(left);
        let end = self.next + count;
        buffer[..count].copy_from_slice(&self.answers.as_slice()[self.next..end]);
        self.next = end;
        Ok(count)
    }
}
