//! The lines of a schedule (`docs/schedules.md`).

ghost use Rattle.std.specs.Prelude.{◌≡◌};
ghost use Rattle.fe_text.specs.Line.{parsed, conn_of, control_in, plain_in, numbered_in, message_in};
ghost use Rattle.fe_text.specs.Line.{conn_line_in};

use crate::request::request_in;
use crate::word::{number_of, says, word_at};
use fe_wire::ClientMessage;

/// The length of the longest line, in bytes, without its line feed.
pub const LONGEST_LINE: usize = 99;

/// The greatest number of a connection; the least is 1.
const GREATEST_CONNECTION: u64 = 999;

/// A line of a schedule. `parse` gives only connections from 1 to 999.
#[derive(Clone, Copy, PartialEq, Eq)]
pub enum Line {
    /// A connection sends a message.
    Message { conn: u64, message: ClientMessage },
    /// A connection ends.
    Gone { conn: u64 },
    /// From here on, until the hold ends, what is pending is stored and posted only before a message that
    /// finds no room.
    Hold,
    /// What is pending is stored and posted, and a hold ends.
    Flush,
    /// The server stops and its store is opened again; a hold ends.
    Stop,
    /// A whole checkpoint is made, if anything was stored since the last one.
    Check,
}

/// The number of the connection with this name, `c1` to `c999`.
#[tactic(auto, unfolding(crate::specs::Line::conn_of))]
fn conn_of(word: &[u8]) -> Option<u64>
    ensures { result ≡ conn_of word.now }
{
    if word.is_empty() || word[0] != b'c' {
        return None;
    }
    let conn = number_of(&word[1..])?;
    if conn < 1 || conn > GREATEST_CONNECTION {
        return None;
    }
    Some(conn)
}

/// The line `hold`, `flush`, `stop` or `check`.
#[tactic(auto, unfolding(crate::specs::Line::control_in))]
fn control_in(word: &[u8]) -> Option<Line>
    ensures { result ≡ control_in word.now }
{
    if says(word, "hold") {
        Some(Line::Hold)
    } else if says(word, "flush") {
        Some(Line::Flush)
    } else if says(word, "stop") {
        Some(Line::Stop)
    } else if says(word, "check") {
        Some(Line::Check)
    } else {
        None
    }
}

/// The message `bye` or `report`.
#[tactic(auto, unfolding(crate::specs::Line::plain_in))]
fn plain_in(word: &[u8]) -> Option<ClientMessage>
    ensures message { result ≡ plain_in word.now }
{
    if says(word, "bye") {
        Some(ClientMessage::Bye)
    } else if says(word, "report") {
        Some(ClientMessage::Report)
    } else {
        None
    }
}

/// The message `attach SESSION`, `cancel NUMBER`, `settle FLOOR` or `NUMBER REQUEST`.
#[tactic(auto, unfolding(crate::specs::Line::numbered_in))]
fn numbered_in(first: &[u8], words: &[u8]) -> Option<ClientMessage>
    ensures message { result ≡ numbered_in first.now words.now }
{
    if says(first, "attach") {
        let session = number_of(words)?;
        return Some(ClientMessage::Attach { session });
    }
    if says(first, "cancel") {
        let number = number_of(words)?;
        return Some(ClientMessage::Cancel { number });
    }
    if says(first, "settle") {
        let floor = number_of(words)?;
        return Some(ClientMessage::Settle { floor });
    }
    let number = number_of(first)?;
    let request = request_in(words)?;
    Some(ClientMessage::Call { number, request })
}

/// The message that the bytes spell: a line of a schedule without the name of its connection, at most 94
/// bytes. `None` if they spell none.
#[tactic(auto, unfolding(crate::specs::Line::message_in))]
pub fn message_in(words: &[u8]) -> Option<ClientMessage>
    ensures message { result ≡ message_in words.now }
{
    match word_at(words) {
        Some((first, words)) => numbered_in(first, words),
        None => plain_in(words),
    }
}

/// The line that is left after the name of its connection.
#[tactic(auto, unfolding(crate::specs::Line::conn_line_in))]
fn conn_line_in(conn: u64, words: &[u8]) -> Option<Line>
    ensures line { result ≡ conn_line_in conn words.now }
{
    if says(words, "gone") {
        return Some(Line::Gone { conn });
    }
    let message = message_in(words)?;
    Some(Line::Message { conn, message })
}

/// The line that the bytes spell, without a line feed, with single spaces between words. `None` if they spell
/// none; no line has more than `LONGEST_LINE` bytes.
#[tactic(auto, unfolding(crate::specs::Line::parsed))]
pub fn parse(bytes: &[u8]) -> Option<Line>
    ensures line { result ≡ parsed bytes.now }
{
    if bytes.len() > LONGEST_LINE {
        return None;
    }
    match word_at(bytes) {
        Some((name, words)) => {
            let conn = conn_of(name)?;
            conn_line_in(conn, words)
        }
        None => control_in(bytes),
    }
}
