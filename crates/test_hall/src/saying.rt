//! Short names for what clients send and receive. There is one array, `cells`, with id 1.

use fe_front::{Mail, Refusal};
use fe_memory::OutOfMemory;
use fe_messages::Reply;
use fe_state::{Answer, Name, Request};
use fe_wire::{ClientMessage, put_message};
use fe_words::{Op, Tag};

/// A message of a client.
#[derive(Clone, Copy)]
pub enum Say {
    Attach(u64),
    /// A call with this number creates the array, with this many words.
    Create(u64, u32, Tag),
    /// A call with this number finds the array.
    Find(u64),
    /// A call with this number operates on the word with this index.
    Does(u64, u32, Op),
    Settle(u64),
    Bye,
}

/// A reply to a client. The floor of a welcome is 1.
#[derive(Clone, Copy)]
pub enum Hear {
    Welcome(u64),
    /// The answers to the call with this number: the array, with this many words; done; and the value.
    Array(u64, u32),
    Done(u64),
    Value(u64, u64),
    Refused(u64, Refusal),
    Goodbye(u64),
}

/// The message that is sent. It is never `None`: `cells` is short enough for a name.
pub fn message_of(say: Say) -> Option<ClientMessage> {
    let (number, request) = match say {
        Say::Attach(session) => return Some(ClientMessage::Attach { session }),
        Say::Settle(floor) => return Some(ClientMessage::Settle { floor }),
        Say::Bye => return Some(ClientMessage::Bye),
        Say::Create(number, length, tag) => {
            let name = Name::new(b"cells")?;
            (number, Request::Create { name, length, tag })
        }
        Say::Find(number) => {
            let name = Name::new(b"cells")?;
            (number, Request::Find { name })
        }
        Say::Does(number, index, op) => {
            let request = Request::Access {
                array: 1,
                index,
                op,
                no_wait: false,
            };
            (number, request)
        }
    };
    Some(ClientMessage::Call { number, request })
}

/// Appends the frame of a message.
pub fn put_said(line: &mut Vec<u8>, say: Say) -> Result<(), OutOfMemory> {
    match message_of(say) {
        Some(message) => put_message(line, &message),
        None => Ok(()),
    }
}

/// Appends the frame of a reply.
pub fn put_heard(line: &mut Vec<u8>, hear: Hear) -> Result<(), OutOfMemory> {
    let mail = match hear {
        Hear::Welcome(session) => Mail::Welcome { session, floor: 1 },
        Hear::Array(number, length) => answered(number, Answer::Array { id: 1, length }),
        Hear::Done(number) => answered(number, Answer::Done),
        Hear::Value(number, value) => answered(number, Answer::Value(value)),
        Hear::Refused(number, refusal) => Mail::Refused { number, refusal },
        Hear::Goodbye(session) => Mail::Goodbye { session },
    };
    Reply::of(mail).put(line)
}

/// The session and the place of an answer do not matter here.
fn answered(number: u64, answer: Answer) -> Mail {
    Mail::Answer {
        session: 0,
        number,
        answer,
        place: 0,
    }
}
