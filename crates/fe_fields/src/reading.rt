//! Reading big-endian fields of frames, records and images (`docs/formats.md`, "Frames", "Entry record" and
//! "Image"): at an offset, or at the front together with the remaining bytes.

ghost use Rattle.std.specs.Prelude.{◌≡◌, ◌+◌, ◌≤◌, length, IfSome};
ghost use Rattle.std.specs.Int.{w32, w64};
ghost use Rattle.fe_fields.specs.Fields.{ReadsAs, field_at, next_number, next_byte, next_bytes};

use byteorder::{BigEndian, ByteOrder};

/// The number in the four bytes at an offset. All four must be there.
pub fn u32_at(bytes: &[u8], at: usize) -> u32
    requires { at + 4 ≤ length bytes.now }
    ensures { result ≡ field_at w32 bytes.now at }
{
    BigEndian::read_u32(&bytes[at..])
}

/// The number in the eight bytes at an offset. All eight must be there.
pub fn u64_at(bytes: &[u8], at: usize) -> u64
    requires { at + 8 ≤ length bytes.now }
    ensures { result ≡ field_at w64 bytes.now at }
{
    BigEndian::read_u64(&bytes[at..])
}

/// The number in the first four bytes and the remaining bytes, or `None` if there are fewer than four.
pub fn next_u32(bytes: &[u8]) -> Option<(u32, &[u8])>
    ensures { ReadsAs (λ x. (x.0, x.1.now)) result (next_number w32 bytes.now) }
{
    if bytes.len() < 4 {
        return None;
    }
    let (front, rest) = bytes.split_at(4);
    Some((BigEndian::read_u32(front), rest))
}

/// The number in the first eight bytes and the remaining bytes, or `None` if there are fewer than eight.
pub fn next_u64(bytes: &[u8]) -> Option<(u64, &[u8])>
    ensures { ReadsAs (λ x. (x.0, x.1.now)) result (next_number w64 bytes.now) }
{
    if bytes.len() < 8 {
        return None;
    }
    let (front, rest) = bytes.split_at(8);
    Some((BigEndian::read_u64(front), rest))
}

/// The first byte and the remaining bytes, or `None` if there are no bytes.
pub fn next_byte(bytes: &[u8]) -> Option<(u8, &[u8])>
    ensures { ReadsAs (λ x. (x.0, x.1.now)) result (next_byte bytes.now) }
{
    match bytes {
        [] => None,
        [byte, rest @ ..] => Some((*byte, rest)),
    }
}

/// The first `count` bytes and the remaining ones, or `None` if there are fewer.
pub fn next_bytes(count: usize, bytes: &[u8]) -> Option<(&[u8], &[u8])>
    ensures value { ReadsAs (λ x. (x.0.now, x.1.now)) result (next_bytes count bytes.now) }
    ensures length { IfSome result (λ x. length x.0.now ≡ count) }
{
    if bytes.len() < count {
        return None;
    }
    Some(bytes.split_at(count))
}
