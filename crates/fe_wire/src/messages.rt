//! Reading clients' messages from the bodies of their frames (`docs/formats.md`, "Frames").

ghost use Rattle.std.specs.Prelude.{◌≡◌};
ghost use Rattle.fe_wire.specs.Reading.{create_of, find_of, access_of, plain_of, message_of};

use crate::client_message::ClientMessage;
use crate::fields::{ended, name_of, name_room, number_of, two_numbers_of};
use crate::kinds;
use fe_codes::{op_of, tag_of};
use fe_fields::{next_byte, next_bytes, next_u32, next_u64};
use fe_state::{Request, named};

#[tactic(auto, unfolding(crate::specs::Reading::create_of))]
fn create_of(is_long: bool, body: &[u8]) -> Option<ClientMessage>
    ensures { result ≡ create_of is_long body.now }
{
    let (number, rest) = next_u64(body)?;
    let (count, rest) = next_byte(rest)?;
    let (cells, rest) = next_bytes(usize::from(name_room(is_long)), rest)?;
    let name = name_of(is_long, count, cells)?;
    let (length, rest) = next_u32(rest)?;
    let (code, rest) = next_byte(rest)?;
    let tag = tag_of(code)?;
    let request = Request::Create { name, length, tag };
    ended(rest, ClientMessage::Call { number, request })
}

#[tactic(auto, unfolding(crate::specs::Reading::find_of))]
fn find_of(is_long: bool, body: &[u8]) -> Option<ClientMessage>
    ensures { result ≡ find_of is_long body.now }
{
    let (number, rest) = next_u64(body)?;
    let (count, rest) = next_byte(rest)?;
    let (cells, rest) = next_bytes(usize::from(name_room(is_long)), rest)?;
    let name = name_of(is_long, count, cells)?;
    let request = Request::Find { name };
    ended(rest, ClientMessage::Call { number, request })
}

#[tactic(auto, unfolding(crate::specs::Reading::access_of))]
fn access_of(no_wait: bool, body: &[u8]) -> Option<ClientMessage>
    ensures { result ≡ access_of no_wait body.now }
{
    let (number, rest) = next_u64(body)?;
    let (code, rest) = next_byte(rest)?;
    let (array, rest) = next_u64(rest)?;
    let (index, rest) = next_u32(rest)?;
    let (operand, rest) = next_u64(rest)?;
    let op = op_of(code, operand)?;
    let request = Request::Access {
        array,
        index,
        op,
        no_wait,
    };
    ended(rest, ClientMessage::Call { number, request })
}

/// The message of a kind whose body is at most two 8-byte numbers, or `None` if there is none.
#[tactic(auto, unfolding(crate::specs::Reading::plain_of))]
fn plain_of(kind: u8, body: &[u8]) -> Option<ClientMessage>
    ensures { result ≡ plain_of kind body.now }
{
    named::<Request>();
    match kind {
        kinds::ATTACH => {
            let session = number_of(body)?;
            Some(ClientMessage::Attach { session })
        }
        kinds::REMOVE => {
            let (number, array) = two_numbers_of(body)?;
            let request = Request::Remove { array };
            Some(ClientMessage::Call { number, request })
        }
        kinds::CANCEL => {
            let number = number_of(body)?;
            Some(ClientMessage::Cancel { number })
        }
        kinds::SETTLE => {
            let floor = number_of(body)?;
            Some(ClientMessage::Settle { floor })
        }
        kinds::BYE => ended(body, ClientMessage::Bye),
        kinds::ASK_REPORT => ended(body, ClientMessage::Report),
        _ => None,
    }
}

/// The message that a frame with this kind and body spells in version 2, which has every message, or `None`
/// if there is none.
#[tactic(auto, unfolding(crate::specs::Reading::message_of))]
pub fn message_of(kind: u8, body: &[u8]) -> Option<ClientMessage>
    ensures { result ≡ message_of kind body.now }
{
    match kind {
        kinds::CREATE => create_of(false, body),
        kinds::FIND => find_of(false, body),
        kinds::ACCESS => access_of(false, body),
        kinds::ACCESS_NOW => access_of(true, body),
        kinds::CREATE_LONG => create_of(true, body),
        kinds::FIND_LONG => find_of(true, body),
        _ => plain_of(kind, body),
    }
}
