//! The calls of a script to a disk, a journal, a keeper or a desk.

use crate::names::Names;
use crate::trouble::Trouble;
use crate::words::{first_number, first_word, number};
use fe_codec::{Format, read_group};
use fe_desk::Step;
use fe_state::Entry;
use std::alloc::Global;

/// What a call does.
#[derive(Clone, Copy, PartialEq, Eq)]
pub enum Verb {
    /// Calls of a disk.
    Write,
    Sync,
    /// Calls of a journal: append a group; close, write and finish the other slot.
    Group,
    Close,
    Slice,
    Open,
    /// Calls of a keeper.
    Append,
    Begin,
    Step,
    Finish,
    /// Steps of a desk.
    Take,
}

/// A call with its arguments.
#[derive(Drop)]
pub struct Act {
    pub verb: Verb,
    /// The offset of a write, or the length of an image.
    pub number: u64,
    pub bytes: Vec<u8>,
    pub entries: Vec<Entry>,
    pub steps: Vec<Step>,
}

fn new_act(alloc: Global, verb: Verb) -> Act {
    Act {
        verb,
        number: 0,
        bytes: Vec::new(alloc),
        entries: Vec::new(alloc),
        steps: Vec::new(alloc),
    }
}

// The entries in records of format 2; none if there are no bytes.
fn entries_of(alloc: Global, records: &[u8]) -> Result<Vec<Entry>, Trouble> {
    if records.is_empty() {
        return Ok(Vec::new(alloc));
    }
    let entries = read_group(alloc, Format::Two, records)?;
    entries.ok_or(Trouble::Syntax)
}

/// The call of a disk, a journal or a keeper in a line.
pub fn act_of(alloc: Global, names: &Names, line: &str) -> Result<Act, Trouble> {
    let (word, rest) = first_word(line);
    let mut act = new_act(alloc, verb_of(word)?);
    match act.verb {
        Verb::Write => {
            let (at, bytes) = first_number(rest)?;
            act.number = at;
            act.bytes = names.bytes_of(bytes)?;
        }
        Verb::Close => act.number = number(rest)?,
        Verb::Group | Verb::Slice | Verb::Open => act.bytes = names.bytes_of(rest)?,
        Verb::Append => {
            let records = names.bytes_of(rest)?;
            act.entries = entries_of(alloc, records.as_slice())?;
        }
        _ => {}
    }
    Ok(act)
}

fn verb_of(word: &str) -> Result<Verb, Trouble> {
    match word {
        "write" => Ok(Verb::Write),
        "sync" => Ok(Verb::Sync),
        "group" => Ok(Verb::Group),
        "close" => Ok(Verb::Close),
        "slice" => Ok(Verb::Slice),
        "open" => Ok(Verb::Open),
        "append" => Ok(Verb::Append),
        "begin" => Ok(Verb::Begin),
        "step" => Ok(Verb::Step),
        "finish" => Ok(Verb::Finish),
        _ => Err(Trouble::Syntax),
    }
}

/// The steps of a desk in a line.
pub fn taking(alloc: Global, names: &Names, line: &str) -> Result<Act, Trouble> {
    let (word, rest) = first_word(line);
    let mut act = new_act(alloc, Verb::Take);
    match word {
        "begin" => act.steps.push(Step::CheckBegin)?,
        "step" => act.steps.push(Step::CheckStep)?,
        "finish" => act.steps.push(Step::CheckFinish)?,
        "connect" => act.steps.push(Step::Connect {
            conn: number(rest)?,
        })?,
        "gone" => act.steps.push(Step::Gone {
            conn: number(rest)?,
        })?,
        _ => put_stream(names, word, rest, &mut act.steps)?,
    }
    Ok(act)
}

// Reads `bytes CONNECTION BYTES`, `line CONNECTION BYTES`, which connects first, or
// `pieces SIZE CONNECTION BYTES`.
fn put_stream(names: &Names, word: &str, rest: &str, steps: &mut Vec<Step>) -> Result<(), Trouble> {
    let (size, rest) = match word {
        "pieces" => first_number(rest)?,
        "bytes" | "line" => (u64::MAX, rest),
        _ => return Err(Trouble::Syntax),
    };
    let (conn, rest) = first_number(rest)?;
    let bytes = names.bytes_of(rest)?;
    if word == "line" {
        steps.push(Step::Connect { conn })?;
    }
    put_pieces(conn, bytes.as_slice(), size as usize, steps)
}

fn put_pieces(conn: u64, bytes: &[u8], size: usize, steps: &mut Vec<Step>) -> Result<(), Trouble> {
    if size == 0 {
        return Err(Trouble::Syntax);
    }
    for piece in bytes.chunks(size) {
        put_bytes(conn, piece, steps)?;
    }
    Ok(())
}

// Sends bytes, then cuts, stores and posts what is pending.
fn put_bytes(conn: u64, piece: &[u8], steps: &mut Vec<Step>) -> Result<(), Trouble> {
    let piece = piece.to_vec(*steps.allocator())?;
    steps.push(Step::Bytes { conn, piece })?;
    steps.push(Step::Cut)?;
    steps.push(Step::Append)?;
    steps.push(Step::Post)?;
    Ok(())
}
