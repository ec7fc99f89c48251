//! The two directions of a connection, its halves, for its read and its write side (`docs/model.md`, "The
//! hall"), and the gate that each message passes first, by which tests hold messages back.

ghost use Rattle.std.specs.Prelude.{◌≡◌, ◌<◌, ◌≤◌, ◌+◌, ◌++◌, [], ℕ, List, length, take, IfOk, OnErr};

use crate::read_count::ReadCount;
use fe_shared::Free;
use std::alloc::Global;
use std::sync::Wait;

/// A read or a write of a connection failed.
#[derive(Clone, Copy, PartialEq, Eq)]
pub struct HalfFault;

/// The direction from the client.
pub trait ReadHalf {
    /// Whether the bytes that it reads are known.
    ghost is_known: { Self → Type 0 };

    /// The bytes that were read.
    ghost known: { Self → List ℕ };

    /// How many reads were made.
    ghost reads: { Self → ℕ };

    /// Whether its stream has ended.
    ghost ended: { Self → Type 0 };

    /// Whether a read failed.
    ghost failed: { Self → Type 0 };

    /// Reads some bytes into the front of the buffer, and returns how many; 0 if the stream has ended.
    fn read(&mut self, free: &mut Free, buffer: &mut [u8]) -> Result<usize, HalfFault>
        requires { 0 < length buffer.old }
        ensures fits { IfOk result (λ n. n ≤ length buffer.old) }
        ensures is_known { is_known self.old → is_known self.new }
        ensures known { is_known self.old → IfOk result
            (λ n. known self.new ≡ known self.old ++ take n buffer.new) }
        ensures err { is_known self.old → OnErr result (known self.new ≡ known self.old) }
        ensures reads { reads self.new ≡ reads self.old + 1 }
        ensures ended { IfOk result (λ n. n ≡ 0 → ended self.new) }
        ensures failed { OnErr result (failed self.new) };
}

/// The direction to the client.
pub trait WriteHalf {
    /// Whether the bytes that it got are known.
    ghost is_known: { Self → Type 0 };

    /// The bytes that it got.
    ghost got: { Self → List ℕ };

    /// Whether a write failed, or took no byte.
    ghost failed: { Self → Type 0 };

    /// Writes some bytes from the front, and returns how many; 0 if it takes no more.
    fn write(&mut self, free: &mut Free, bytes: &[u8]) -> Result<usize, HalfFault>
        requires { 0 < length bytes.now }
        ensures fits { IfOk result (λ n. n ≤ length bytes.now) }
        ensures is_known { is_known self.old → is_known self.new }
        ensures got { is_known self.old → IfOk result (λ n. got self.new ≡ got self.old ++ take n bytes.now) }
        ensures err { is_known self.old → OnErr result (got self.new ≡ got self.old) }
        ensures none { IfOk result (λ n. n ≡ 0 → failed self.new) }
        ensures failed { OnErr result (failed self.new) };
}

/// What each message of a read side passes before it is handled.
pub trait Gate {
    /// Returns once a message of this connection may be handled.
    fn pass<R: Wait>(&self, rt: &R, free: &mut Free, conn: u64);

    /// Lets a message through that need not wait, in place of `pass`; `false` leaves it to `pass`.
    fn passes_at_once(&self, _conn: u64) -> bool {
        false
    }
}

/// A gate that lets each message through at once.
#[derive(Clone, Copy)]
pub struct Open;

impl Gate for Open {
    fn pass<R: Wait>(&self, _rt: &R, _free: &mut Free, _conn: u64) {}

    fn passes_at_once(&self, _conn: u64) -> bool {
        true
    }
}

/// Bytes in memory that are read in pieces.
#[derive(Drop)]
pub struct MemoryRead {
    bytes: Vec<u8>,
    next: usize,
    piece: usize,
    reads: ReadCount,
    ghost within: { next ≤ length bytes.items },
}

impl MemoryRead {
    /// These bytes, in pieces of at most this size. With a size of 0 the stream ends at once.
    pub fn new(bytes: Vec<u8>, piece: usize) -> MemoryRead
        ensures { ⟦<MemoryRead as ReadHalf>⟧.known result ≡ [] }
    {
        MemoryRead {
            bytes,
            next: 0,
            piece,
            reads: ReadCount::none(),
        }
    }
}

impl ReadHalf for MemoryRead {
    ghost use Rattle.std.specs.Prelude.{◌≡◌, ◌<◌, length, take};

    ghost is_known = { λ _. Unit {0} };

    ghost known = { λ r. take r.next r.bytes.items };

    ghost reads = { λ r. r.reads };

    ghost ended = { λ r. 0 < r.piece → r.next ≡ length r.bytes.items };

    ghost failed = { λ _. ⊥ };

    fn read(&mut self, _free: &mut Free, buffer: &mut [u8]) -> Result<usize, HalfFault> {
        let count = buffer
            .len()
            .min(self.piece)
            .min(self.bytes.len() - self.next);
        let end = self.next + count;
        buffer[..count].copy_from_slice(&self.bytes.as_slice()[self.next..end]);
        self.next = end;
        self.reads.rise();
        Ok(count)
    }
}

/// Bytes in memory that were written.
#[derive(Drop)]
pub struct MemoryWrite {
    bytes: Vec<u8>,
}

impl MemoryWrite {
    /// A half to which nothing is written yet.
    pub fn new(alloc: Global) -> MemoryWrite
        ensures { ⟦<MemoryWrite as WriteHalf>⟧.got result ≡ [] }
    {
        MemoryWrite {
            bytes: Vec::new(alloc),
        }
    }

    /// What was written.
    pub fn as_slice(&self) -> &[u8]
        ensures { result.now ≡ ⟦<MemoryWrite as WriteHalf>⟧.got self.now }
    {
        self.bytes.as_slice()
    }
}

impl WriteHalf for MemoryWrite {
    ghost is_known = { λ _. Unit {0} };

    ghost got = { λ w. w.bytes.items };

    ghost failed = { λ _. Unit {0} };

    fn write(&mut self, _free: &mut Free, bytes: &[u8]) -> Result<usize, HalfFault> {
        match self.bytes.extend_from_slice(bytes) {
            Ok(()) => Ok(bytes.len()),
            Err(_) => Err(HalfFault),
        }
    }
}
