//! The table of operations: what each needs of a word, does to it and answers (`docs/model.md`, "Words").

ghost use Rattle.std.specs.Prelude.{◌≡◌};
ghost use Rattle.fe_words.specs.Table.{table, need_of, name_of, IsUndefinedWhereUnmet};

use crate::word::{Need, Reply, Tag, Word};

/// An operation on a tagged word. The operand of a write is the value it stores; the operand of `IntFetchAdd`
/// is the number it adds, modulo 2^64.
#[derive(Clone, Copy, PartialEq, Eq)]
pub enum Op {
    ReadFe,
    ReadFf,
    ReadXx,
    WriteEf(u64),
    WriteFf(u64),
    WriteXf(u64),
    Purge,
    IntFetchAdd(u64),
}

impl Op {
    /// The tag that the word must have for the operation to be done.
    pub fn need(self) -> Need
        ensures { result ≡ need_of self }
    {
        match self {
            Op::ReadFe => Need::Full,
            Op::ReadFf => Need::Full,
            Op::ReadXx => Need::Any,
            Op::WriteEf(_) => Need::Empty,
            Op::WriteFf(_) => Need::Full,
            Op::WriteXf(_) => Need::Any,
            Op::Purge => Need::Any,
            Op::IntFetchAdd(_) => Need::Full,
        }
    }

    /// The word after the operation and its answer, or `None` if the word lacks the tag that the operation
    /// needs.
    pub fn rule(self, word: Word) -> Option<(Word, Reply)>
        ensures { result ≡ table self word }
    {
        let value = word.value;
        match (self, word.tag) {
            (Op::ReadFe, Tag::Full) => Some((empty(value), Reply::Value(value))),
            (Op::ReadFf, Tag::Full) => Some((full(value), Reply::Value(value))),
            (Op::ReadXx, _) => Some((word, Reply::Value(value))),
            (Op::WriteEf(operand), Tag::Empty) => Some((full(operand), Reply::Done)),
            (Op::WriteFf(operand), Tag::Full) => Some((full(operand), Reply::Done)),
            (Op::WriteXf(operand), _) => Some((full(operand), Reply::Done)),
            (Op::Purge, _) => Some((empty(0), Reply::Done)),
            (Op::IntFetchAdd(operand), Tag::Full) => {
                let sum = value.wrapping_add(operand);
                Some((full(sum), Reply::Value(value)))
            }
            _ => None,
        }
    }

    /// The name of the operation in schedules and reports (`docs/schedules.md`, "Lines"), without its
    /// operand.
    pub fn name(self) -> &'static str
        ensures { result.now ≡ name_of self }
    {
        match self {
            Op::ReadFe => "readfe",
            Op::ReadFf => "readff",
            Op::ReadXx => "readxx",
            Op::WriteEf(_) => "writeef",
            Op::WriteFf(_) => "writeff",
            Op::WriteXf(_) => "writexf",
            Op::Purge => "purge",
            Op::IntFetchAdd(_) => "int_fetch_add",
        }
    }
}

fn full(value: u64) -> Word
    ensures { result ≡ record { value = value; tag = Tag.Full } }
{
    Word {
        value,
        tag: Tag::Full,
    }
}

fn empty(value: u64) -> Word
    ensures { result ≡ record { value = value; tag = Tag.Empty } }
{
    Word {
        value,
        tag: Tag::Empty,
    }
}

/// An operation has no answer exactly when its word does not have the tag that it needs.
pub fn waits_where_unmet()
    ensures { IsUndefinedWhereUnmet }
{}
