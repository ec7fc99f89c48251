//! The lines of a report, the text that says what waits (`docs/model.md`, "The report").

ghost use Rattle.std.specs.Prelude.{◌≡◌, ◌+◌, ◌*◌, ◌≤◌, ◌++◌, OnOk, codes, drop, length, string_bytes};
ghost use Rattle.std.specs.Prelude.{string_len};
ghost use Rattle.std.specs.BTreeMap.{btree_map_len};
ghost use Rattle.std.specs.Fmt.{decimal};
ghost use Rattle.std.specs.List.{flat_map};
ghost use Rattle.fe_words.specs.Table.{name_of};
ghost use Rattle.fe_report.specs.Report.{count_line, word_line, session_line, all_wait_line};

use crate::reporting::WORD_LINE;
use crate::rows::Spot;
use fe_memory::OutOfMemory;
use fe_words::Op;
use itoa::write_digits;
use std::collections::BTreeMap;

/// Writes how many requests wait.
pub(crate) fn put_count(text: &mut String, count: u32) -> Result<(), OutOfMemory>
    ensures line { OnOk result (string_bytes text.new ≡ string_bytes text.old ++ count_line count) }
    ensures some { OnOk result (string_len text.old + 1 ≤ string_len text.new) }
    ensures few { OnOk result (string_len text.new ≤ string_len text.old + 19) }
{
    write!(text, "waiting {count}\n")?;
    Ok(())
}

/// Writes a piece of a line so that it ends at `end`, and returns where it starts.
fn put_piece(line: &mut [u8], piece: &str, end: usize) -> usize
    requires room { length piece.now ≤ end }
    requires in_bounds { end ≤ length line.old }
    ensures start { result + length piece.now ≡ end }
    ensures written { drop result line.new ≡ piece.now ++ drop end line.old }
{
    let start = end - piece.len();
    line[start..end].copy_from_slice(piece.as_bytes());
    start
}

/// Writes the second part of a request's line, at the end of `line`: its session, number and operation.
/// Returns where that starts.
fn put_caller(line: &mut [u8], session: u64, number: u64, op: Op) -> usize
    requires whole { length line.old ≡ 108 }
    ensures room { 36 ≤ result }
    ensures in_bounds { result ≤ 108 }
    ensures caller { drop result line.new
        ≡ codes " session " ++
        (decimal session ++ (codes " number " ++ (decimal number
        ++ (codes " " ++ (name_of op ++ codes "\n"))))) }
{
    let at = put_piece(line, "\n", line.len());
    let at = put_piece(line, op.name(), at);
    let at = put_piece(line, " ", at);
    let at = write_digits(number, line, at);
    let at = put_piece(line, " number ", at);
    let at = write_digits(session, line, at);
    put_piece(line, " session ", at)
}

/// Writes the first part of a request's line, its word, so that it ends at `end`. Returns where it starts.
fn put_spot(line: &mut [u8], array: u64, index: u32, end: usize) -> usize
    requires room { 36 ≤ end }
    requires in_bounds { end ≤ length line.old }
    ensures in_bounds { result ≤ end }
    ensures spot { drop result line.new
        ≡ codes "word " ++ (decimal array ++ (codes " " ++ (decimal index ++ drop end line.old))) }
{
    let at = write_digits(u64::from(index), line, end);
    let at = put_piece(line, " ", at);
    let at = write_digits(array, line, at);
    put_piece(line, "word ", at)
}

/// Writes the line of a request. The line is built from its end, so the text grows only once.
fn put_word(
    text: &mut String,
    array: u64,
    index: u32,
    session: u64,
    number: u64,
    op: Op,
) -> Result<(), OutOfMemory>
    ensures line { OnOk result (string_bytes text.new
        ≡ string_bytes text.old ++ word_line (((array, index), (session, number)), op)) }
    ensures few { OnOk result (string_len text.new ≤ string_len text.old + 108) }
{
    let mut line = [0; WORD_LINE];
    let caller = put_caller(&mut line, session, number, op);
    let start = put_spot(&mut line, array, index, caller);
    // The bytes are ASCII. To check each of them would take a third of the time of a report.
    let line = unsafe { str::from_utf8_unchecked(&line[start..]) };
    text.push_str(line)?;
    Ok(())
}

/// Writes the lines of the requests.
pub(crate) fn put_words(text: &mut String, words: &[(Spot, Op)]) -> Result<(), OutOfMemory>
    ensures lines { OnOk result (string_bytes text.new
        ≡ string_bytes text.old ++ flat_map word_line words.now) }
    ensures few { OnOk result (string_len text.new ≤ string_len text.old + 108 * length words.now) }
{
    for row in words {
        let (((array, index), (session, number)), op) = *row;
        put_word(text, array, index, session, number, op)?;
    }
    Ok(())
}

/// Writes the line of a session.
fn put_session(text: &mut String, session: u64, count: u32) -> Result<(), OutOfMemory>
    ensures line { OnOk result (string_bytes text.new
        ≡ string_bytes text.old ++ session_line (session, count)) }
    ensures few { OnOk result (string_len text.new ≤ string_len text.old + 46) }
{
    write!(text, "session {session} waits {count}\n")?;
    Ok(())
}

/// Writes the lines of the sessions.
pub(crate) fn put_sessions(
    text: &mut String,
    sessions: &BTreeMap<u64, u32>,
) -> Result<(), OutOfMemory>
    ensures lines { OnOk result (string_bytes text.new
        ≡ string_bytes text.old ++ flat_map session_line sessions.now.entries) }
    ensures few { OnOk result (string_len text.new ≤ string_len text.old + 46 * btree_map_len sessions.now) }
{
    for (session, count) in sessions {
        put_session(text, *session, *count)?;
    }
    Ok(())
}

/// Writes the last line: `all-wait yes` if `all`, else `all-wait no`.
pub(crate) fn put_all_wait(text: &mut String, all: bool) -> Result<(), OutOfMemory>
    ensures line { OnOk result (string_bytes text.new ≡ string_bytes text.old ++ all_wait_line all) }
    ensures few { OnOk result (string_len text.new ≤ string_len text.old + 13) }
{
    text.push_str(if all {
        "all-wait yes\n"
    } else {
        "all-wait no\n"
    })?;
    Ok(())
}
