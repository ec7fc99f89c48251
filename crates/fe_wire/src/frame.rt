//! Building a frame: its length, its kind and the field of a name (`docs/formats.md`, "Frames").

ghost use Rattle.std.specs.Prelude.{◌≡◌, ◌+◌, ◌≤◌, [], ◌∷◌, ◌++◌, length};
ghost use Rattle.std.specs.Int.{w32, to_be_bytes};
ghost use Rattle.fe_wire.specs.Spelling.{is_long, name_field};
ghost use Rattle.fe_state.specs.Limits.{longest_name};

use crate::decoder_state::FRAME_BYTES;
use crate::fields::name_room;
use fe_fields::Fields;
use fe_state::{NAME_BYTES, Name};

/// A frame under construction.
pub type Frame = Fields<FRAME_BYTES>;

/// Whether the name has more than 16 bytes, so that its frame has a kind for long names.
pub fn is_long(name: &Name) -> bool
    ensures { result ≡ is_long name.now }
{
    name.bytes().len() > 16
}

/// The length and the kind of a frame, without its body.
pub fn frame_of(length: u32, kind: u8) -> Frame
    ensures { result ≡ to_be_bytes w32 length ++ kind ∷ [] }
{
    let mut frame = Frame::new();
    frame.put_u32(length);
    frame.put_u8(kind);
    frame
}

/// Appends the length of the name, its bytes and the zeros after them. There must be room for 33 bytes, as
/// many as a long name takes.
pub fn put_name(frame: &mut Frame, name: &Name)
    requires { length frame.old + 33 ≤ 51 }
    ensures field { frame.new ≡ frame.old ++ name_field name.now }
    ensures short { length name.now ≤ longest_name }
{
    let bytes = name.bytes();
    let room = usize::from(name_room(is_long(name)));
    frame.put_u8(bytes.len() as u8);
    frame.put(bytes);
    frame.put(&[0; NAME_BYTES][..room - bytes.len()]);
}
