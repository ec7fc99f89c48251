//! The bytes that the journal writes: header fields (`docs/formats.md`, "Device"), groups, and the beginning
//! of a journal area (`docs/formats.md`, "Journal area").

ghost use Rattle.std.specs.Prelude.{◌≡◌, ◌+◌, ◌≤◌, ◌<◌, ◌^◌, ◌∷◌, length};
ghost use Rattle.fe_journal.specs.Contents.{after_gate};
ghost use Rattle.fe_journal.specs.Journal.{header_fields, area_start, BeginsWith};

use crate::Format;
use byteorder::{BigEndian, ByteOrder};

/// A header's fields: magic, generation and image length.
pub fn header_fields(format: Format, generation: u64, image_length: usize) -> [u8; 20]
    requires { image_length < 2 ^ 32 }
    ensures { result ≡ header_fields format generation image_length }
{
    let mut fields = [0; 20];
    BigEndian::write_u64(&mut fields, format.magic());
    BigEndian::write_u64(&mut fields[8..], generation);
    BigEndian::write_u32(&mut fields[16..], image_length as u32);
    fields
}

/// Puts an open gate, the payload's length, the payload and a closed gate into the buffer. Returns how many
/// bytes that is.
pub fn put_group(buffer: &mut [u8], payload: &[u8]) -> usize
    requires room { 6 + length payload.now ≤ length buffer.old }
    requires short { length payload.now < 2 ^ 32 }
    ensures size { result ≡ 6 + length payload.now }
    ensures put { BeginsWith result (1 ∷ after_gate payload.now) buffer.old buffer.new }
{
    let end = 5 + payload.len();
    let mut head = [1; 5];
    BigEndian::write_u32(&mut head[1..], payload.len() as u32);
    buffer[..5].copy_from_slice(&head);
    buffer[5..end].copy_from_slice(payload);
    buffer[end] = 0;
    end + 1
}

/// Puts the beginning of a new journal area into the buffer: the catch-up (all that came since the slot was
/// begun) as a group, or a closed gate if there is none. Returns how many bytes that is.
pub fn put_area_start(buffer: &mut [u8], catch_up: &[u8]) -> usize
    requires room { 6 + length catch_up.now ≤ length buffer.old }
    requires short { length catch_up.now < 2 ^ 32 }
    ensures within { result ≤ length buffer.old }
    ensures put { BeginsWith result (area_start catch_up.now) buffer.old buffer.new }
{
    if catch_up.is_empty() {
        buffer[0] = 0;
        return 1;
    }
    put_group(buffer, catch_up)
}
