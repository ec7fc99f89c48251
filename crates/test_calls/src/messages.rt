//! Messages of clients and replies, and their frames.

use fe_state::{Answer, Name, Request};
use fe_wire::{ClientMessage, put_message};
use fe_words::{Op, Tag};
use std::process::Abort;

/// What a client sends.
#[derive(Clone, Copy)]
pub enum Said {
    Attach(u64),
    /// A call under this number makes array `cells`, with this many words, all with this tag.
    Create(u64, u32, Tag),
    /// A call under this number removes array 1.
    Remove(u64),
    /// A call under this number operates on the word of array 1 with this index.
    Access(u64, u32, Op),
    Report,
}

/// What a client is sent.
#[derive(Clone, Copy)]
pub enum ExpectedReply {
    /// The session was attached, and its floor is 1.
    Welcome(u64),
    Answer(u64, Answer),
}

fn request_of(rt: &impl Abort, said: Said) -> Request {
    match said {
        Said::Create(_, length, tag) => Request::Create {
            name: Name::new(b"cells").expect(rt, "a name"),
            length,
            tag,
        },
        Said::Access(_, index, op) => Request::Access {
            array: 1,
            index,
            op,
            no_wait: false,
        },
        _ => Request::Remove { array: 1 },
    }
}

fn message_of(rt: &impl Abort, said: Said) -> ClientMessage {
    match said {
        Said::Attach(session) => ClientMessage::Attach { session },
        Said::Report => ClientMessage::Report,
        Said::Create(number, ..) | Said::Remove(number) | Said::Access(number, ..) => {
            ClientMessage::Call {
                number,
                request: request_of(rt, said),
            }
        }
    }
}

/// Appends the frame of a message, at the latest at the second try.
pub fn put_said(rt: &impl Abort, out: &mut Vec<u8>, said: Said) {
    let message = message_of(rt, said);
    if put_message(out, &message).is_err() {
        assert!(rt; put_message(out, &message).is_ok());
    }
}

fn put(rt: &impl Abort, out: &mut Vec<u8>, bytes: &[u8]) {
    if out.extend_from_slice(bytes).is_err() {
        assert!(rt; out.extend_from_slice(bytes).is_ok());
    }
}

// The code of an answer, with its value or id, and its length.
fn parts_of(answer: Answer) -> (u8, u64, u32) {
    match answer {
        Answer::Value(value) => (1, value, 0),
        Answer::Done => (2, 0, 0),
        Answer::Array { id, length } => (3, id, length),
        Answer::NoArray => (4, 0, 0),
        Answer::BadIndex => (5, 0, 0),
        Answer::NameTaken => (6, 0, 0),
        Answer::ArrayLimit => (7, 0, 0),
        Answer::WordLimit => (8, 0, 0),
        Answer::BadName => (9, 0, 0),
        Answer::BadLength => (10, 0, 0),
        Answer::NotNow => (11, 0, 0),
    }
}

fn put_answer(rt: &impl Abort, out: &mut Vec<u8>, number: u64, answer: Answer) {
    let (code, value, length) = parts_of(answer);
    put(rt, out, &[0, 0, 0, 22, 66]);
    put(rt, out, &number.to_be_bytes());
    put(rt, out, &[code]);
    put(rt, out, &value.to_be_bytes());
    put(rt, out, &length.to_be_bytes());
}

/// Appends the frame of a reply, as `docs/formats.md` spells it, at the latest at the second try.
pub fn put_expected(rt: &impl Abort, out: &mut Vec<u8>, expected: ExpectedReply) {
    match expected {
        ExpectedReply::Welcome(session) => {
            put(rt, out, &[0, 0, 0, 17, 65]);
            put(rt, out, &session.to_be_bytes());
            put(rt, out, &1u64.to_be_bytes());
        }
        ExpectedReply::Answer(number, answer) => put_answer(rt, out, number, answer),
    }
}

/// The first of these frames, which must have at most 259 bytes, and those after it.
pub fn first_frame<'a>(rt: &impl Abort, frames: &'a [u8]) -> (&'a [u8], &'a [u8]) {
    assert!(rt; frames.len() >= 4 && &frames[..3] == [0, 0, 0].as_slice());
    let length = 4 + frames[3] as usize;
    assert!(rt; length <= frames.len());
    frames.split_at(length)
}
