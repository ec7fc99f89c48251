//! Writing clients' messages as frames (`docs/formats.md`, "Frames").

ghost use Rattle.std.specs.Prelude.{◌≡◌, ◌+◌, ◌<◌, ◌++◌, length, OnOk, OnErr, vec_len, vec_capacity};
ghost use Rattle.fe_wire.specs.Spelling.{spelling, Fits};

use crate::client_message::ClientMessage;
use crate::fields::name_room;
use crate::frame::{Frame, frame_of, is_long, put_name};
use crate::kinds;
use fe_codes::{op_code, operand_of, tag_code};
use fe_memory::OutOfMemory;
use fe_state::{Name, Request};
use fe_words::{Op, Tag};

fn attach_frame(session: u64) -> Frame
    ensures { result ≡ spelling (ClientMessage.Attach session) }
{
    let mut frame = frame_of(9, kinds::ATTACH);
    frame.put_u64(session);
    frame
}

fn create_frame(number: u64, name: &Name, words: u32, tag: Tag) -> Frame
    ensures spelled { result ≡ spelling (ClientMessage.Call number (Request.Create name.now words tag)) }
    ensures fits { Fits (ClientMessage.Call number (Request.Create name.now words tag)) }
{
    let is_long = is_long(name);
    let mut frame = frame_of(
        u32::from(name_room(is_long)) + 15,
        kinds::create_kind(is_long),
    );
    frame.put_u64(number);
    put_name(&mut frame, name);
    frame.put_u32(words);
    frame.put_u8(tag_code(tag));
    frame
}

fn find_frame(number: u64, name: &Name) -> Frame
    ensures spelled { result ≡ spelling (ClientMessage.Call number (Request.Find name.now)) }
    ensures fits { Fits (ClientMessage.Call number (Request.Find name.now)) }
{
    let is_long = is_long(name);
    let mut frame = frame_of(
        u32::from(name_room(is_long)) + 10,
        kinds::find_kind(is_long),
    );
    frame.put_u64(number);
    put_name(&mut frame, name);
    frame
}

fn remove_frame(number: u64, array: u64) -> Frame
    ensures { result ≡ spelling (ClientMessage.Call number (Request.Remove array)) }
{
    let mut frame = frame_of(17, kinds::REMOVE);
    frame.put_u64(number);
    frame.put_u64(array);
    frame
}

fn access_frame(number: u64, array: u64, index: u32, op: Op, no_wait: bool) -> Frame
    ensures spelled { result ≡ spelling (ClientMessage.Call number (Request.Access array index op no_wait)) }
    ensures fits { Fits (ClientMessage.Call number (Request.Access array index op no_wait)) }
{
    let mut frame = frame_of(30, kinds::access_kind(no_wait));
    frame.put_u64(number);
    frame.put_u8(op_code(op));
    frame.put_u64(array);
    frame.put_u32(index);
    frame.put_u64(operand_of(op));
    frame
}

fn cancel_frame(number: u64) -> Frame
    ensures { result ≡ spelling (ClientMessage.Cancel number) }
{
    let mut frame = frame_of(9, kinds::CANCEL);
    frame.put_u64(number);
    frame
}

fn settle_frame(floor: u64) -> Frame
    ensures { result ≡ spelling (ClientMessage.Settle floor) }
{
    let mut frame = frame_of(9, kinds::SETTLE);
    frame.put_u64(floor);
    frame
}

fn call_frame(number: u64, request: &Request) -> Frame
    ensures spelled { result ≡ spelling (ClientMessage.Call number request.now) }
    ensures fits { Fits (ClientMessage.Call number request.now) }
{
    match request {
        Request::Create { name, length, tag } => create_frame(number, name, *length, *tag),
        Request::Find { name } => find_frame(number, name),
        Request::Remove { array } => remove_frame(number, *array),
        Request::Access {
            array,
            index,
            op,
            no_wait,
        } => access_frame(number, *array, *index, *op, *no_wait),
    }
}

/// Appends the frame of a message. Fails only if the vector has no spare room for it and memory runs out;
/// then nothing is appended.
pub fn put_message(out: &mut Vec<u8>, message: &ClientMessage) -> Result<(), OutOfMemory>
    ensures ok { OnOk result (out.new.items ≡ out.old.items ++ spelling message.now) }
    ensures err { OnErr result (out.new.items ≡ out.old.items) }
    ensures full { OnErr result (vec_capacity out.old < vec_len out.old + length (spelling message.now)) }
    // The message is in the grammar, so it can be read again.
    ensures fits { Fits message.now }
{
    let frame = match message {
        ClientMessage::Attach { session } => attach_frame(*session),
        ClientMessage::Call { number, request } => call_frame(*number, request),
        ClientMessage::Cancel { number } => cancel_frame(*number),
        ClientMessage::Settle { floor } => settle_frame(*floor),
        ClientMessage::Bye => frame_of(1, kinds::BYE),
        ClientMessage::Report => frame_of(1, kinds::ASK_REPORT),
    };
    out.extend_from_slice(frame.bytes())?;
    Ok(())
}
