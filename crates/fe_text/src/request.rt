//! The requests of a schedule's lines (`docs/schedules.md`, "Lines"). A function `.._in` reads the bytes that
//! its comment shows.

ghost use Rattle.std.specs.Prelude.{◌≡◌};
ghost use Rattle.std.specs.Option.{option_map};
ghost use Rattle.fe_text.specs.Line.{op_named, writing_op_named, create_in, find_in, remove_in, last_in};
ghost use Rattle.fe_text.specs.Line.{access_in, writing_access_in, request_in};

use crate::word::{name_in, number_of, says, small_number_of, tag_named, word_at};
use fe_state::Request;
use fe_words::Op;

/// The operation with this name, if it has no operand.
#[tactic(auto, unfolding(crate::specs::Line::op_named))]
fn op_named(word: &[u8]) -> Option<Op>
    ensures { result ≡ op_named word.now }
{
    if says(word, "readfe") {
        Some(Op::ReadFe)
    } else if says(word, "readff") {
        Some(Op::ReadFf)
    } else if says(word, "readxx") {
        Some(Op::ReadXx)
    } else if says(word, "purge") {
        Some(Op::Purge)
    } else {
        None
    }
}

/// The operation with this name and operand, if it has an operand.
#[tactic(auto, unfolding(crate::specs::Line::writing_op_named))]
fn writing_op_named(word: &[u8], operand: u64) -> Option<Op>
    ensures { result ≡ writing_op_named word.now operand }
{
    if says(word, "writeef") {
        Some(Op::WriteEf(operand))
    } else if says(word, "writeff") {
        Some(Op::WriteFf(operand))
    } else if says(word, "writexf") {
        Some(Op::WriteXf(operand))
    } else if says(word, "int_fetch_add") {
        Some(Op::IntFetchAdd(operand))
    } else {
        None
    }
}

/// `NAME LENGTH full|empty`.
#[tactic(auto, unfolding(crate::specs::Line::create_in))]
fn create_in(words: &[u8]) -> Option<Request>
    ensures { result ≡ create_in words.now }
{
    let (name, words) = word_at(words)?;
    let (length, tag) = word_at(words)?;
    let name = name_in(name)?;
    let length = small_number_of(length)?;
    let tag = tag_named(tag)?;
    Some(Request::Create { name, length, tag })
}

/// `NAME`, which is one word.
#[tactic(auto, unfolding(crate::specs::Line::find_in))]
fn find_in(words: &[u8]) -> Option<Request>
    ensures { result ≡ find_in words.now }
{
    match word_at(words) {
        Some(_) => None,
        None => {
            let name = name_in(words)?;
            Some(Request::Find { name })
        }
    }
}

/// `ARRAY`, a number.
#[tactic(auto, unfolding(crate::specs::Line::remove_in))]
fn remove_in(words: &[u8]) -> Option<Request>
    ensures { result ≡ remove_in words.now }
{
    let array = number_of(words)?;
    Some(Request::Remove { array })
}

/// The last word, without `nowait` if that comes after it, and whether it does.
#[tactic(auto, unfolding(crate::specs::Line::last_in))]
fn last_in(words: &[u8]) -> Option<(&[u8], bool)>
    ensures { option_map (λ p. (p.0.now, p.1)) result ≡ last_in words.entry.now }
{
    match word_at(words) {
        Some((word, flag)) => {
            if says(flag, "nowait") {
                Some((word, true))
            } else {
                None
            }
        }
        None => Some((words, false)),
    }
}

/// `ARRAY INDEX`, or `ARRAY INDEX nowait`.
#[tactic(auto, unfolding(crate::specs::Line::access_in))]
fn access_in(op: Op, words: &[u8]) -> Option<Request>
    ensures { result ≡ access_in op words.now }
{
    let (array, words) = word_at(words)?;
    let (index, no_wait) = last_in(words)?;
    let array = number_of(array)?;
    let index = small_number_of(index)?;
    Some(Request::Access {
        array,
        index,
        op,
        no_wait,
    })
}

/// `ARRAY INDEX OPERAND`, or `ARRAY INDEX OPERAND nowait`.
#[tactic(auto, unfolding(crate::specs::Line::writing_access_in))]
fn writing_access_in(name: &[u8], words: &[u8]) -> Option<Request>
    ensures { result ≡ writing_access_in name.now words.now }
{
    let (array, words) = word_at(words)?;
    let (index, words) = word_at(words)?;
    let (operand, no_wait) = last_in(words)?;
    let array = number_of(array)?;
    let index = small_number_of(index)?;
    let operand = number_of(operand)?;
    let op = writing_op_named(name, operand)?;
    Some(Request::Access {
        array,
        index,
        op,
        no_wait,
    })
}

/// `create NAME LENGTH full|empty`, `find NAME`, `remove ARRAY`, `OP ARRAY INDEX` or
/// `OP ARRAY INDEX OPERAND`, the last two with or without `nowait`.
#[tactic(auto, unfolding(crate::specs::Line::request_in, crate::specs::Line::access_named))]
pub(crate) fn request_in(words: &[u8]) -> Option<Request>
    ensures { result ≡ request_in words.now }
{
    let (kind, words) = word_at(words)?;
    if says(kind, "create") {
        return create_in(words);
    }
    if says(kind, "find") {
        return find_in(words);
    }
    if says(kind, "remove") {
        return remove_in(words);
    }
    match op_named(kind) {
        Some(op) => access_in(op, words),
        None => writing_access_in(kind, words),
    }
}
