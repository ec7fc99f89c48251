//! The head of a stream: the frame that its first bytes begin, as far as they have come. A frame is a length
//! field, a kind of one byte, and a body (`docs/formats.md`, "Frames").

ghost use Rattle.std.specs.Prelude.{◌≡◌};
ghost use Rattle.fe_wire.specs.Stream.{IsHead, length_of_kind};

use crate::client_message::ClientMessage;
use crate::kinds;
use crate::messages::message_of;
use crate::version::Version;
use fe_fields::u32_at;

/// The number of bytes in the length field of a frame.
pub const LENGTH_BYTES: usize = 4;

/// The least value of the length field, which counts the kind and the body: that of a frame without a body.
const SHORTEST: u32 = 1;

/// A frame, as far as the bytes that have come show it.
pub enum Head {
    /// More bytes are needed.
    Unfinished,
    /// The frame is bad, whatever bytes follow.
    Bad,
    /// The frame is complete. It has this many bytes with its length field, and spells the message.
    Whole(usize, ClientMessage),
}

fn length_of_kind(version: Version, kind: u8) -> Option<u32>
    ensures { result ≡ length_of_kind version kind }
{
    match (version, kind) {
        (Version::Two, kinds::ACCESS_NOW) => Some(30),
        (Version::Two, kinds::CREATE_LONG) => Some(47),
        (Version::Two, kinds::FIND_LONG) => Some(42),
        (_, kinds::ATTACH) => Some(9),
        (_, kinds::CREATE) => Some(31),
        (_, kinds::FIND) => Some(26),
        (_, kinds::REMOVE) => Some(17),
        (_, kinds::ACCESS) => Some(30),
        (_, kinds::CANCEL) => Some(9),
        (_, kinds::SETTLE) => Some(9),
        (_, kinds::BYE) => Some(1),
        (_, kinds::ASK_REPORT) => Some(1),
        _ => None,
    }
}

/// The head of these bytes. More bytes may follow the frame.
pub fn head_of(version: Version, bytes: &[u8]) -> Head
    ensures { IsHead version result bytes.now }
{
    if bytes.len() < LENGTH_BYTES {
        return Head::Unfinished;
    }
    let length = u32_at(bytes, 0);
    let longest = match version {
        Version::One => 31,
        Version::Two => 47,
    };
    if length < SHORTEST || length > longest {
        return Head::Bad;
    }
    if bytes.len() == LENGTH_BYTES {
        return Head::Unfinished;
    }
    let kind = bytes[LENGTH_BYTES];
    if length_of_kind(version, kind) != Some(length) {
        return Head::Bad;
    }
    let end = LENGTH_BYTES + length as usize;
    if bytes.len() < end {
        return Head::Unfinished;
    }
    match message_of(kind, &bytes[LENGTH_BYTES + 1..end]) {
        Some(message) => Head::Whole(end, message),
        None => Head::Bad,
    }
}
