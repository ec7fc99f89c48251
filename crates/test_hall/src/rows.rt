//! The plays of the tests.

use crate::play::{Play, Script, Step};
use crate::saying::{Hear, Say};
use fe_front::Refusal;
use fe_hall::{CommitEnd, ReadEnd, WriteEnd};
use fe_keeper::Fault;
use fe_words::{Op, Tag};

/// One client that stays until everything is sent.
const STAYING: Play = Play {
    script: Script::Steps(&[]),
    connections: 1,
    reads: None,
    is_deaf: false,
    ends: (ReadEnd::Closed, WriteEnd::Gone),
    commit_end: CommitEnd::Stopped,
    calls: [0, 0, 0, 0, 0, 0],
    mails: [0, 0, 0, 0],
    receipts: 0,
};

/// A word is written, emptied, and read as it is.
pub const FIRST_PATH: Play = Play {
    script: Script::Steps(&[
        Step::Says(1, Say::Attach(7), &[(1, Hear::Welcome(7))]),
        Step::Says(1, Say::Create(1, 2, Tag::Empty), &[(1, Hear::Array(1, 2))]),
        Step::Says(1, Say::Does(2, 0, Op::WriteEf(42)), &[(1, Hear::Done(2))]),
        Step::Says(1, Say::Does(3, 0, Op::ReadFe), &[(1, Hear::Value(3, 42))]),
        Step::Says(1, Say::Does(4, 0, Op::ReadXx), &[(1, Hear::Value(4, 42))]),
    ]),
    calls: [4, 4, 0, 0, 0, 0],
    mails: [5, 5, 0, 0],
    receipts: 4,
    ..STAYING
};

/// One write answers all waiting readers.
pub const BROADCAST: Play = Play {
    script: Script::Steps(&[
        Step::Says(1, Say::Attach(7), &[(1, Hear::Welcome(7))]),
        Step::Says(1, Say::Create(1, 2, Tag::Empty), &[(1, Hear::Array(1, 2))]),
        Step::Says(2, Say::Attach(8), &[(2, Hear::Welcome(8))]),
        Step::Says(3, Say::Attach(9), &[(3, Hear::Welcome(9))]),
        Step::Says(4, Say::Attach(10), &[(4, Hear::Welcome(10))]),
        Step::Says(2, Say::Does(1, 1, Op::ReadFf), &[]),
        Step::Says(3, Say::Does(1, 1, Op::ReadFf), &[]),
        Step::Says(4, Say::Does(1, 1, Op::ReadFf), &[]),
        Step::Says(
            1,
            Say::Does(2, 1, Op::WriteEf(9)),
            &[
                (1, Hear::Done(2)),
                (2, Hear::Value(1, 9)),
                (3, Hear::Value(1, 9)),
                (4, Hear::Value(1, 9)),
            ],
        ),
    ]),
    connections: 4,
    calls: [5, 5, 0, 0, 0, 0],
    mails: [9, 9, 0, 0],
    receipts: 5,
    ..STAYING
};

/// A writer waits until the word is emptied.
pub const TURNS_OF_WRITERS: Play = Play {
    script: Script::Steps(&[
        Step::Says(1, Say::Attach(7), &[(1, Hear::Welcome(7))]),
        Step::Says(1, Say::Create(1, 2, Tag::Empty), &[(1, Hear::Array(1, 2))]),
        Step::Says(2, Say::Attach(8), &[(2, Hear::Welcome(8))]),
        Step::Says(3, Say::Attach(9), &[(3, Hear::Welcome(9))]),
        Step::Says(4, Say::Attach(10), &[(4, Hear::Welcome(10))]),
        Step::Says(1, Say::Does(2, 0, Op::WriteEf(5)), &[(1, Hear::Done(2))]),
        Step::Says(2, Say::Does(1, 0, Op::WriteEf(6)), &[]),
        Step::Says(
            1,
            Say::Does(3, 0, Op::ReadFe),
            &[(1, Hear::Value(3, 5)), (2, Hear::Done(1))],
        ),
        Step::Says(3, Say::Does(1, 0, Op::ReadFf), &[(3, Hear::Value(1, 6))]),
    ]),
    connections: 4,
    calls: [5, 5, 0, 0, 0, 0],
    mails: [9, 9, 0, 0],
    receipts: 5,
    ..STAYING
};

/// A sum wraps at 2^64, and a purge leaves 0.
pub const ARITHMETIC: Play = Play {
    script: Script::Steps(&[
        Step::Says(1, Say::Attach(7), &[(1, Hear::Welcome(7))]),
        Step::Says(1, Say::Create(1, 2, Tag::Empty), &[(1, Hear::Array(1, 2))]),
        Step::Says(
            1,
            Say::Does(2, 0, Op::WriteXf(18446744073709551615)),
            &[(1, Hear::Done(2))],
        ),
        Step::Says(
            1,
            Say::Does(3, 0, Op::IntFetchAdd(1)),
            &[(1, Hear::Value(3, 18446744073709551615))],
        ),
        Step::Says(1, Say::Does(4, 0, Op::ReadFf), &[(1, Hear::Value(4, 0))]),
        Step::Says(1, Say::Does(5, 0, Op::WriteFf(7)), &[(1, Hear::Done(5))]),
        Step::Says(1, Say::Does(6, 0, Op::ReadFf), &[(1, Hear::Value(6, 7))]),
        Step::Says(1, Say::Does(7, 0, Op::Purge), &[(1, Hear::Done(7))]),
        Step::Says(1, Say::Does(8, 0, Op::ReadXx), &[(1, Hear::Value(8, 0))]),
    ]),
    calls: [8, 8, 0, 0, 0, 0],
    mails: [9, 9, 0, 0],
    receipts: 8,
    ..STAYING
};

/// A purge lets a waiting writer continue.
pub const PURGE: Play = Play {
    script: Script::Steps(&[
        Step::Says(1, Say::Attach(7), &[(1, Hear::Welcome(7))]),
        Step::Says(1, Say::Create(1, 2, Tag::Empty), &[(1, Hear::Array(1, 2))]),
        Step::Says(2, Say::Attach(8), &[(2, Hear::Welcome(8))]),
        Step::Says(3, Say::Attach(9), &[(3, Hear::Welcome(9))]),
        Step::Says(4, Say::Attach(10), &[(4, Hear::Welcome(10))]),
        Step::Says(1, Say::Does(2, 0, Op::WriteEf(5)), &[(1, Hear::Done(2))]),
        Step::Says(2, Say::Does(1, 0, Op::WriteEf(8)), &[]),
        Step::Says(
            1,
            Say::Does(3, 0, Op::Purge),
            &[(1, Hear::Done(3)), (2, Hear::Done(1))],
        ),
        Step::Says(1, Say::Does(4, 0, Op::ReadFf), &[(1, Hear::Value(4, 8))]),
    ]),
    connections: 4,
    calls: [5, 5, 0, 0, 0, 0],
    mails: [9, 9, 0, 0],
    receipts: 5,
    ..STAYING
};

/// A session moves to another connection, and its old connection has none. A call is answered before the call
/// that it unblocks.
pub const TAKEN_OVER: Play = Play {
    script: Script::Steps(&[
        Step::Says(1, Say::Attach(7), &[(1, Hear::Welcome(7))]),
        Step::Says(1, Say::Create(1, 2, Tag::Empty), &[(1, Hear::Array(1, 2))]),
        Step::Says(1, Say::Does(2, 0, Op::ReadFe), &[]),
        Step::Says(
            1,
            Say::Settle(3),
            &[(1, Hear::Refused(3, Refusal::StillWaiting))],
        ),
        Step::Says(2, Say::Attach(7), &[(2, Hear::Welcome(7))]),
        Step::Says(
            1,
            Say::Does(3, 0, Op::ReadXx),
            &[(1, Hear::Refused(3, Refusal::NotAttached))],
        ),
        Step::Says(2, Say::Does(2, 0, Op::ReadFe), &[]),
        Step::Says(
            2,
            Say::Does(3, 0, Op::WriteEf(6)),
            &[(2, Hear::Done(3)), (2, Hear::Value(2, 6))],
        ),
    ]),
    connections: 2,
    calls: [5, 3, 0, 0, 1, 1],
    mails: [7, 7, 0, 0],
    receipts: 3,
    ..STAYING
};

/// A session ends and begins again, so its number 1 is answered twice.
pub const TWO_LIVES: Play = Play {
    script: Script::Steps(&[
        Step::Says(1, Say::Attach(7), &[(1, Hear::Welcome(7))]),
        Step::Says(1, Say::Create(1, 2, Tag::Empty), &[(1, Hear::Array(1, 2))]),
        Step::Says(1, Say::Bye, &[(1, Hear::Goodbye(7))]),
        Step::Says(
            1,
            Say::Does(2, 0, Op::ReadXx),
            &[(1, Hear::Refused(2, Refusal::NotAttached))],
        ),
        Step::Says(1, Say::Attach(7), &[(1, Hear::Welcome(7))]),
        Step::Says(1, Say::Find(1), &[(1, Hear::Array(1, 2))]),
    ]),
    calls: [3, 2, 0, 0, 0, 1],
    mails: [6, 6, 0, 0],
    receipts: 2,
    ..STAYING
};

/// A call is sent again from another connection while the sync of its entry is held back. Its only answer
/// comes before the welcome, which is stored after it.
pub const RESENT: Play = Play {
    script: Script::Steps(&[
        Step::Says(1, Say::Attach(7), &[(1, Hear::Welcome(7))]),
        Step::Says(1, Say::Create(1, 2, Tag::Empty), &[(1, Hear::Array(1, 2))]),
        Step::Holds,
        Step::Says(1, Say::Does(2, 0, Op::WriteEf(42)), &[]),
        Step::IsHeld,
        Step::Says(2, Say::Attach(7), &[]),
        Step::Says(2, Say::Does(2, 0, Op::WriteEf(42)), &[]),
        Step::LetsGo(&[(2, Hear::Done(2)), (2, Hear::Welcome(7))]),
    ]),
    connections: 2,
    calls: [3, 2, 0, 0, 1, 0],
    mails: [4, 4, 0, 0],
    receipts: 2,
    ..STAYING
};

/// An empty frame after one of 13 bytes.
pub const BAD_FRAME: Play = Play {
    script: Script::Steps(&[
        Step::Says(1, Say::Attach(7), &[(1, Hear::Welcome(7))]),
        Step::Spells(1, b"\0\0\0\0"),
    ]),
    ends: (ReadEnd::BadFrame { offset: 13 }, WriteEnd::Gone),
    mails: [1, 1, 0, 0],
    ..STAYING
};

/// With one byte per read, ten reads are too few for the first message.
pub const FEW_TURNS: Play = Play {
    script: Script::Steps(&[Step::Says(1, Say::Attach(7), &[])]),
    reads: Some(10),
    ends: (ReadEnd::Turns, WriteEnd::Gone),
    ..STAYING
};

/// Thirteen reads of one byte are just enough for the first message, and its reply still comes.
pub const LAST_TURN: Play = Play {
    script: Script::Steps(&[Step::Says(1, Say::Attach(7), &[(1, Hear::Welcome(7))])]),
    reads: Some(13),
    ends: (ReadEnd::Turns, WriteEnd::Gone),
    mails: [1, 1, 0, 0],
    ..STAYING
};

/// A client that takes nothing after its first refusal: its box gets 128 more, the next one removes the
/// connection, and the last call finds no connection.
pub const FULL_BOX: Play = Play {
    script: Script::Steps(&[
        Step::Says(
            1,
            Say::Find(1),
            &[(1, Hear::Refused(1, Refusal::NotAttached))],
        ),
        Step::Repeats(1, Say::Find(2), 130),
    ]),
    is_deaf: true,
    ends: (ReadEnd::Gone, WriteEnd::Gone),
    calls: [130, 0, 0, 0, 0, 130],
    mails: [130, 1, 129, 0],
    ..STAYING
};

/// The disk fails, so no client is served any more, not even one that sent nothing before.
pub const FAULT: Play = Play {
    script: Script::Steps(&[
        Step::Says(1, Say::Attach(7), &[(1, Hear::Welcome(7))]),
        Step::Says(1, Say::Create(1, 2, Tag::Empty), &[]),
        Step::HasEnded,
        Step::Says(1, Say::Find(2), &[]),
        Step::Says(2, Say::Attach(8), &[]),
    ]),
    connections: 2,
    ends: (ReadEnd::Stopped, WriteEnd::Stopped),
    commit_end: CommitEnd::Store(Fault::Device),
    calls: [1, 1, 0, 0, 0, 0],
    mails: [1, 1, 0, 0],
    ..STAYING
};

/// Two mails are in a box when the disk fails: the write side takes them before it ends.
pub const LEFT_MAIL: Play = Play {
    script: Script::Steps(&[
        Step::Says(
            1,
            Say::Find(1),
            &[(1, Hear::Refused(1, Refusal::NotAttached))],
        ),
        Step::Repeats(1, Say::Find(2), 2),
        Step::Says(2, Say::Attach(7), &[(2, Hear::Welcome(7))]),
        Step::Says(2, Say::Create(1, 2, Tag::Empty), &[]),
        Step::HasEnded,
        Step::Says(2, Say::Find(2), &[]),
        Step::Says(
            1,
            Say::Find(3),
            &[
                (1, Hear::Refused(2, Refusal::NotAttached)),
                (1, Hear::Refused(2, Refusal::NotAttached)),
            ],
        ),
    ]),
    connections: 2,
    is_deaf: true,
    ends: (ReadEnd::Stopped, WriteEnd::Stopped),
    commit_end: CommitEnd::Store(Fault::Device),
    calls: [4, 1, 0, 0, 0, 3],
    mails: [4, 4, 0, 0],
    ..STAYING
};

/// The sixteen words of the windows, all full.
pub const WORDS: Play = Play {
    script: Script::Steps(&[
        Step::Says(1, Say::Attach(7), &[(1, Hear::Welcome(7))]),
        Step::Says(1, Say::Create(1, 16, Tag::Full), &[(1, Hear::Array(1, 16))]),
        Step::Says(1, Say::Bye, &[(1, Hear::Goodbye(7))]),
    ]),
    calls: [1, 1, 0, 0, 0, 0],
    mails: [3, 3, 0, 0],
    receipts: 1,
    ..STAYING
};

/// Each of 64 clients empties and fills each of the sixteen words once in each of its two windows.
pub const WINDOWS: Play = Play {
    script: Script::Windows(2),
    connections: 64,
    calls: [4096, 4096, 0, 0, 0, 0],
    mails: [4224, 4224, 0, 0],
    receipts: 4096,
    ..STAYING
};
