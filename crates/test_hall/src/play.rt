//! What clients send to a hall, and what should come of it.

use crate::saying::{Hear, Say, put_heard};
use fe_hall::{CommitEnd, ReadEnd, WriteEnd};
use fe_memory::OutOfMemory;

/// The replies to a step, each with its connection. Those to one connection come in this order.
pub type Replies = &'static [(u64, Hear)];

/// A step of clients that take turns. It is made once the step before is handled and all replies have come.
pub enum Step {
    /// A connection sends this.
    Says(u64, Say, Replies),
    /// A connection sends this message, this many times at once. No reply is awaited.
    Repeats(u64, Say, usize),
    /// A connection sends these bytes. No reply is awaited.
    Spells(u64, &'static [u8]),
    /// From here on the syncs of the store are held back.
    Holds,
    /// Waits until a sync is held back.
    IsHeld,
    /// Syncs go on. These replies come.
    LetsGo(Replies),
    /// Waits until the committing side has ended.
    HasEnded,
}

impl Step {
    /// The replies that come before the next step is made.
    pub fn replies(&self) -> Replies {
        match self {
            Step::Says(_, _, replies) | Step::LetsGo(replies) => *replies,
            _ => &[],
        }
    }

    /// Appends the frames of the step's replies to a connection.
    fn put(&self, conn: u64, line: &mut Vec<u8>) -> Result<(), OutOfMemory> {
        for (to, hear) in self.replies() {
            if *to == conn {
                put_heard(line, *hear)?;
            }
        }
        Ok(())
    }
}

/// How clients send.
#[derive(Clone, Copy)]
pub enum Script {
    /// They take turns.
    Steps(&'static [Step]),
    /// All at once, each with its own session: this many windows of 32 calls, each sent once all calls of the
    /// window before are answered.
    Windows(usize),
}

impl Script {
    /// Appends the frames that should be written to a connection. In a play of windows none are checked.
    pub fn put(&self, conn: u64, line: &mut Vec<u8>) -> Result<(), OutOfMemory> {
        if let Script::Steps(steps) = self {
            for step in *steps {
                step.put(conn, line)?;
            }
        }
        Ok(())
    }
}

/// What the clients of a hall do, and what should come of it.
#[derive(Clone, Copy)]
pub struct Play {
    pub script: Script,
    /// The number of connections; they are numbered from 1 on.
    pub connections: u64,
    /// If present, a read returns one byte, and this is the maximum number of reads of a connection.
    pub reads: Option<u64>,
    /// No write returns before the read side of its connection has ended.
    pub is_deaf: bool,
    /// How both sides of each connection end.
    pub ends: (ReadEnd, WriteEnd),
    /// How the committing side ends.
    pub commit_end: CommitEnd,
    /// The numbers of calls: made, completed, waiting, withdrawn, repeated and refused.
    pub calls: [u64; 6],
    /// The numbers of mails: made, taken, dropped and left.
    pub mails: [u64; 4],
    /// The number of answers taken.
    pub receipts: usize,
}
