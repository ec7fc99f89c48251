//! The two halves of a client's connection.

use crate::board::{Board, BoardAnswer};
use fe_disk::SyncHold;
use fe_hall::{Free, HalfFault, ReadCount, ReadHalf, WriteHalf};
use std::alloc::Global;
use std::sync::{Mutex, Wait};
use std::thread;
use std::time::{Clock, Duration};

/// How often a half checks at most whether it may go on, at intervals of a millisecond. Then it fails.
const TURNS: usize = 100_000;

/// The half from which a client's messages are read.
#[derive(Drop)]
pub struct ClientRead<'r, 'b, 'h, R> {
    rt: &'r R,
    board: &'b Mutex<Board>,
    hold: &'h SyncHold,
    conn: u64,
    /// The maximum number of bytes in one read.
    piece: usize,
    /// What it is sending, and how much of that was read.
    line: Vec<u8>,
    next: usize,
    reads: ReadCount,
}

impl<'r, 'b, 'h, R: Clock + Wait> ClientRead<'r, 'b, 'h, R> {
    /// The half of a connection that has sent nothing yet. A read gives at most `piece` bytes.
    pub fn new(
        rt: &'r R,
        alloc: Global,
        board: &'b Mutex<Board>,
        hold: &'h SyncHold,
        conn: u64,
        piece: usize,
    ) -> ClientRead<'r, 'b, 'h, R> {
        ClientRead {
            rt,
            board,
            hold,
            conn,
            piece,
            line: Vec::new(alloc),
            next: 0,
            reads: ReadCount::none(),
        }
    }
}

/// Waits until there is something to send, and puts it into the line. Returns whether there is.
fn wait<R: Clock + Wait>(
    rt: &R,
    board: &Mutex<Board>,
    hold: &SyncHold,
    conn: u64,
    line: &mut Vec<u8>,
) -> Result<bool, HalfFault> {
    for _ in 0..TURNS {
        match board.lock(rt).next(rt, hold, conn, line) {
            Ok(BoardAnswer::Line) => return Ok(true),
            Ok(BoardAnswer::End) => return Ok(false),
            Ok(BoardAnswer::Nothing) => {}
            Err(_) => return Err(HalfFault),
        }
        thread::sleep(rt, Duration::from_millis(1));
    }
    Err(HalfFault)
}

impl<'r, 'b, 'h, R: Clock + Wait> ReadHalf for ClientRead<'r, 'b, 'h, R> {
    ghost use Rattle.std.specs.Prelude.{[], ⊤};

    ghost is_known = { λ _. ⊥ };

    ghost known = { λ _. [] };

    ghost reads = { λ r. r.reads };

    ghost ended = { λ _. ⊤ };

    ghost failed = { λ _. ⊤ };

    fn read(&mut self, _free: &mut Free, buffer: &mut [u8]) -> Result<usize, HalfFault> {
        self.reads.rise();
        if self.next >= self.line.len() {
            self.next = 0;
            self.line.clear();
            if !wait(self.rt, self.board, self.hold, self.conn, &mut self.line)? {
                return Ok(0);
            }
        }
        let rest = &self.line.as_slice()[self.next.min(self.line.len())..];
        let count = rest.len().min(self.piece).min(buffer.len());
        buffer[..count].copy_from_slice(&rest[..count]);
        self.next = self.next.saturating_add(count);
        Ok(count)
    }
}

/// The half to which a client's replies are written.
#[derive(Drop)]
pub struct ClientWrite<'r, 'b, R> {
    rt: &'r R,
    board: &'b Mutex<Board>,
    conn: u64,
}

impl<'r, 'b, R: Clock + Wait> ClientWrite<'r, 'b, R> {
    /// The half of a connection.
    pub fn new(rt: &'r R, board: &'b Mutex<Board>, conn: u64) -> ClientWrite<'r, 'b, R> {
        ClientWrite { rt, board, conn }
    }
}

impl<'r, 'b, R: Clock + Wait> WriteHalf for ClientWrite<'r, 'b, R> {
    ghost use Rattle.std.specs.Prelude.{[], ⊤};

    ghost is_known = { λ _. ⊥ };

    ghost got = { λ _. [] };

    ghost failed = { λ _. ⊤ };

    fn write(&mut self, _free: &mut Free, bytes: &[u8]) -> Result<usize, HalfFault> {
        if self.board.lock(self.rt).hear(self.conn, bytes).is_err() {
            return Err(HalfFault);
        }
        for _ in 0..TURNS {
            if self.board.lock(self.rt).takes(self.conn) {
                return Ok(bytes.len());
            }
            thread::sleep(self.rt, Duration::from_millis(1));
        }
        Err(HalfFault)
    }
}
