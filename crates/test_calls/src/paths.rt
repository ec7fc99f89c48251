//! Paths of messages, and what is sent for them.

use crate::messages::{ExpectedReply, Said};
use fe_state::Answer;
use fe_words::{Op, Tag};

/// What connections send, all that each should be sent for it, and how many groups should be stored: one
/// after each line that makes an entry.
#[derive(Clone, Copy)]
pub struct Path {
    pub lines: &'static [(u64, Said)],
    pub replies: &'static [(u64, ExpectedReply)],
    pub groups: u64,
}

const CELLS: Answer = Answer::Array { id: 1, length: 2 };

/// Session 7 makes an array, fills its first word, empties it and looks at it.
pub const FIRST: Path = Path {
    lines: &[
        (1, Said::Attach(7)),
        (1, Said::Create(1, 2, Tag::Empty)),
        (1, Said::Access(2, 0, Op::WriteEf(42))),
        (1, Said::Access(3, 0, Op::ReadFe)),
        (1, Said::Access(4, 0, Op::ReadXx)),
    ],
    replies: &[
        (1, ExpectedReply::Welcome(7)),
        (1, ExpectedReply::Answer(1, CELLS)),
        (1, ExpectedReply::Answer(2, Answer::Done)),
        (1, ExpectedReply::Answer(3, Answer::Value(42))),
        (1, ExpectedReply::Answer(4, Answer::Value(42))),
    ],
    groups: 5,
};

/// Three sessions wait for a word, and a fourth fills it: one group of four entries.
pub const BROADCAST: Path = Path {
    lines: &[
        (1, Said::Attach(7)),
        (1, Said::Create(1, 2, Tag::Empty)),
        (2, Said::Attach(8)),
        (3, Said::Attach(9)),
        (4, Said::Attach(10)),
        (2, Said::Access(1, 1, Op::ReadFf)),
        (3, Said::Access(1, 1, Op::ReadFf)),
        (4, Said::Access(1, 1, Op::ReadFf)),
        (1, Said::Access(2, 1, Op::WriteEf(9))),
    ],
    replies: &[
        (1, ExpectedReply::Welcome(7)),
        (1, ExpectedReply::Answer(1, CELLS)),
        (1, ExpectedReply::Answer(2, Answer::Done)),
        (2, ExpectedReply::Welcome(8)),
        (2, ExpectedReply::Answer(1, Answer::Value(9))),
        (3, ExpectedReply::Welcome(9)),
        (3, ExpectedReply::Answer(1, Answer::Value(9))),
        (4, ExpectedReply::Welcome(10)),
        (4, ExpectedReply::Answer(1, Answer::Value(9))),
    ],
    groups: 6,
};

/// Three sessions wait for words of an array, which is removed, and its name is free again.
pub const REMOVAL: Path = Path {
    lines: &[
        (1, Said::Attach(7)),
        (1, Said::Create(1, 2, Tag::Empty)),
        (2, Said::Attach(8)),
        (3, Said::Attach(9)),
        (4, Said::Attach(10)),
        (2, Said::Access(1, 0, Op::ReadFf)),
        (3, Said::Access(1, 1, Op::ReadFe)),
        (4, Said::Access(1, 1, Op::ReadFf)),
        (1, Said::Remove(2)),
        (1, Said::Create(3, 1, Tag::Full)),
    ],
    replies: &[
        (1, ExpectedReply::Welcome(7)),
        (1, ExpectedReply::Answer(1, CELLS)),
        (1, ExpectedReply::Answer(2, Answer::Done)),
        (
            1,
            ExpectedReply::Answer(3, Answer::Array { id: 2, length: 1 }),
        ),
        (2, ExpectedReply::Welcome(8)),
        (2, ExpectedReply::Answer(1, Answer::NoArray)),
        (3, ExpectedReply::Welcome(9)),
        (3, ExpectedReply::Answer(1, Answer::NoArray)),
        (4, ExpectedReply::Welcome(10)),
        (4, ExpectedReply::Answer(1, Answer::NoArray)),
    ],
    groups: 7,
};

/// Session 7 makes an array of all the words that there may be.
pub const LARGEST: Path = Path {
    lines: &[
        (1, Said::Attach(7)),
        (1, Said::Create(1, 65_536, Tag::Empty)),
    ],
    replies: &[
        (1, ExpectedReply::Welcome(7)),
        (
            1,
            ExpectedReply::Answer(
                1,
                Answer::Array {
                    id: 1,
                    length: 65_536,
                },
            ),
        ),
    ],
    groups: 2,
};
