//! Reading the header of a slot, and which of two slots counts (`docs/formats.md`, "Device").

ghost use Rattle.std.specs.Prelude.{◌≡◌, ◌<◌, length, Option, None, Some};
ghost use Rattle.fe_journal.specs.Layout.{header_bytes};
ghost use Rattle.fe_journal.specs.Store.{IsFormatOf, IsHeader, IsCounting};

use crate::Format;
use crate::layout::HEADER_BYTES;
use byteorder::{BigEndian, ByteOrder};

/// The fields in the header of a valid slot: format, generation and image length.
#[derive(Clone, Copy)]
pub struct Header {
    pub format: Format,
    pub generation: u64,
    pub image_length: u32,
}

/// The header in the bytes of a slot's header area, if the slot is valid.
pub fn header_in(bytes: &[u8]) -> Option<Header>
    requires { length bytes.now ≡ header_bytes }
    ensures { IsHeader bytes.now 0 result }
{
    if bytes[HEADER_BYTES - 1] != 1 {
        return None;
    }
    let format = format_of(BigEndian::read_u64(bytes))?;
    Some(Header {
        format,
        generation: BigEndian::read_u64(&bytes[8..]),
        image_length: BigEndian::read_u32(&bytes[16..]),
    })
}

// The format with this magic.
fn format_of(magic: u64) -> Option<Format>
    ensures { IsFormatOf magic result }
{
    if magic == Format::One.magic() {
        return Some(Format::One);
    }
    if magic == Format::Two.magic() {
        return Some(Format::Two);
    }
    None
}

/// Which of two slots counts, given the headers of those that are valid.
pub fn counting(first: Option<Header>, second: Option<Header>) -> Option<(usize, Header)>
    ensures { IsCounting first second result }
{
    match (first, second) {
        (None, None) => None,
        (Some(header), None) => Some((0, header)),
        (None, Some(header)) => Some((1, header)),
        (Some(one), Some(two)) => {
            if one.generation < two.generation {
                Some((1, two))
            } else {
                Some((0, one))
            }
        }
    }
}
