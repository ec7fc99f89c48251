//! The clients of a play, under one lock: what they sent, and what was written to them.

use crate::play::{Play, Replies, Script, Step};
use crate::saying::{Say, put_said};
use fe_disk::SyncHold;
use fe_hall::{ReadEnd, WriteEnd};
use fe_memory::OutOfMemory;
use fe_state::WINDOW;
use fe_words::Op;
use std::alloc::Global;
use std::sync::Wait;

/// The number of replies to a window: one to each call, and one to the attach or the settle.
const REPLIES: usize = WINDOW as usize + 1;

/// The number of words that the windows use.
const WORDS: u64 = 16;

/// A client of a play.
#[derive(Drop)]
pub struct Client {
    /// The frames that were written to it; in a play of windows they are not kept.
    pub written: Vec<u8>,
    /// The number of frames that were written to it.
    heard: usize,
    /// The number of windows that it has sent.
    said: usize,
    /// How its sides ended, if they have.
    pub read_end: Option<ReadEnd>,
    pub write_end: Option<WriteEnd>,
}

/// The answer to a client that asks what to send.
#[derive(Clone, Copy, PartialEq, Eq)]
pub enum BoardAnswer {
    /// It sends something.
    Line,
    /// It waits, and asks again.
    Nothing,
    /// It sends nothing more.
    End,
}

/// The clients of a play.
#[derive(Drop)]
pub struct Board {
    script: Script,
    is_deaf: bool,
    clients: Vec<Client>,
    /// The number of steps made.
    made: usize,
    /// The connection that made the last step, until the step is handled.
    speaker: Option<u64>,
    /// The number of replies that have come, and the number that should have come by now.
    heard: usize,
    awaited: usize,
    /// The committing side has ended.
    pub over: bool,
}

impl Board {
    /// A board on which nothing was sent yet.
    pub fn new(alloc: Global, play: &Play) -> Result<Board, OutOfMemory> {
        let mut clients = Vec::new(alloc);
        for _ in 0..play.connections {
            clients.push(Client {
                written: Vec::new(alloc),
                heard: 0,
                said: 0,
                read_end: None,
                write_end: None,
            })?;
        }
        Ok(Board {
            script: play.script,
            is_deaf: play.is_deaf,
            clients,
            made: 0,
            speaker: None,
            heard: 0,
            awaited: 0,
            over: false,
        })
    }

    /// The clients, that of connection 1 first.
    pub fn clients(&self) -> &[Client] {
        self.clients.as_slice()
    }

    fn client(&mut self, conn: u64) -> Option<&mut Client> {
        self.clients
            .as_mut_slice()
            .get_mut(conn.saturating_sub(1) as usize)
    }

    /// A connection has handled what it sent, and asks what to send next. It is appended to the line.
    pub fn next(
        &mut self,
        rt: &impl Wait,
        hold: &SyncHold,
        conn: u64,
        line: &mut Vec<u8>,
    ) -> Result<BoardAnswer, OutOfMemory> {
        self.handled(conn);
        match self.script {
            Script::Windows(count) => self.next_window(conn, count, line),
            Script::Steps(steps) => {
                if self.speaker.is_some() || self.heard < self.awaited {
                    return Ok(BoardAnswer::Nothing);
                }
                match steps.get(self.made) {
                    Some(step) if self.heard == self.awaited => {
                        self.make(rt, hold, conn, step, line)
                    }
                    _ => Ok(BoardAnswer::End),
                }
            }
        }
    }

    fn handled(&mut self, conn: u64) {
        if self.speaker == Some(conn) {
            self.speaker = None;
        }
    }

    /// Makes a step, if it belongs to this connection or to none.
    fn make(
        &mut self,
        rt: &impl Wait,
        hold: &SyncHold,
        conn: u64,
        step: &Step,
        line: &mut Vec<u8>,
    ) -> Result<BoardAnswer, OutOfMemory> {
        let is_made = match step {
            Step::Says(by, say, _) => return self.say(conn, *by, *say, 1, step.replies(), line),
            Step::Repeats(by, say, times) => return self.say(conn, *by, *say, *times, &[], line),
            Step::Spells(by, bytes) => return self.spell(conn, *by, bytes, line),
            Step::Holds => {
                hold.hold(rt);
                true
            }
            Step::IsHeld => hold.is_holding(rt),
            Step::LetsGo(replies) => {
                hold.let_go(rt);
                self.awaited = self.awaited.saturating_add(replies.len());
                true
            }
            Step::HasEnded => self.over,
        };
        if is_made {
            self.made = self.made.saturating_add(1);
        }
        Ok(BoardAnswer::Nothing)
    }

    fn say(
        &mut self,
        conn: u64,
        by: u64,
        say: Say,
        times: usize,
        replies: Replies,
        line: &mut Vec<u8>,
    ) -> Result<BoardAnswer, OutOfMemory> {
        if by != conn {
            return Ok(BoardAnswer::Nothing);
        }
        for _ in 0..times {
            put_said(line, say)?;
        }
        self.awaited = self.awaited.saturating_add(replies.len());
        Ok(self.speaks(conn))
    }

    fn spell(
        &mut self,
        conn: u64,
        by: u64,
        bytes: &[u8],
        line: &mut Vec<u8>,
    ) -> Result<BoardAnswer, OutOfMemory> {
        if by != conn {
            return Ok(BoardAnswer::Nothing);
        }
        line.extend_from_slice(bytes)?;
        Ok(self.speaks(conn))
    }

    fn speaks(&mut self, conn: u64) -> BoardAnswer {
        self.made = self.made.saturating_add(1);
        self.speaker = Some(conn);
        BoardAnswer::Line
    }

    /// The next window of a connection, once everything it sent before is answered.
    fn next_window(
        &mut self,
        conn: u64,
        count: usize,
        line: &mut Vec<u8>,
    ) -> Result<BoardAnswer, OutOfMemory> {
        let Some(client) = self.client(conn) else {
            return Ok(BoardAnswer::End);
        };
        let window = client.said;
        if client.heard < window.saturating_mul(REPLIES) {
            return Ok(BoardAnswer::Nothing);
        }
        if window >= count {
            return Ok(BoardAnswer::End);
        }
        client.said = window.saturating_add(1);
        put_window(conn, window as u64, line)?;
        Ok(BoardAnswer::Line)
    }

    /// Notes frames that were written to a connection.
    pub fn hear(&mut self, conn: u64, bytes: &[u8]) -> Result<(), OutOfMemory> {
        let keeps = matches!(self.script, Script::Steps(_));
        let count = frames_in(bytes);
        self.heard = self.heard.saturating_add(count);
        let Some(client) = self.client(conn) else {
            return Ok(());
        };
        client.heard = client.heard.saturating_add(count);
        if keeps {
            client.written.extend_from_slice(bytes)?;
        }
        Ok(())
    }

    /// Whether a write to the connection returns.
    pub fn takes(&mut self, conn: u64) -> bool {
        let waits = self.is_deaf;
        match self.client(conn) {
            Some(client) => !waits || client.read_end.is_some(),
            None => true,
        }
    }

    /// Notes that the read side of a connection ended.
    pub fn read_ended(&mut self, conn: u64, end: ReadEnd) {
        self.handled(conn);
        if let Some(client) = self.client(conn) {
            client.read_end = Some(end);
        }
    }

    /// Notes that the write side of a connection ended.
    pub fn write_ended(&mut self, conn: u64, end: WriteEnd) {
        if let Some(client) = self.client(conn) {
            client.write_end = Some(end);
        }
    }
}

/// The number of frames in these bytes. Each has fewer than 65,536 bytes.
fn frames_in(bytes: &[u8]) -> usize {
    let mut rest = bytes;
    for count in 0..bytes.len() {
        if rest.len() < 4 {
            return count;
        }
        let length = 4 + usize::from(rest[2]) * 256 + usize::from(rest[3]);
        rest = &rest[length.min(rest.len())..];
    }
    0
}

/// Appends a window of a connection: an attach, or a settle of the window before; then `readfe` and `writeef`
/// of each of sixteen words.
fn put_window(conn: u64, window: u64, line: &mut Vec<u8>) -> Result<(), OutOfMemory> {
    let first = window.saturating_mul(WINDOW).saturating_add(1);
    if window == 0 {
        put_said(line, Say::Attach(conn))?;
    } else {
        put_said(line, Say::Settle(first))?;
    }
    for k in 0..WINDOW {
        let op = if k % 2 == 0 {
            Op::ReadFe
        } else {
            Op::WriteEf(conn)
        };
        let index = conn.saturating_add(k / 2) % WORDS;
        put_said(line, Say::Does(first.saturating_add(k), index as u32, op))?;
    }
    Ok(())
}
