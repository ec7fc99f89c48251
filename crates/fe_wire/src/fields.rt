//! Reading the names in frames, and bodies of one number or two (`docs/formats.md`, "Frames").

ghost use Rattle.std.specs.Prelude.{◌≡◌, length};
ghost use Rattle.fe_wire.specs.Reading.{number_of, two_numbers_of, least_name, name_of, are_zero, ended};
ghost use Rattle.fe_wire.specs.Spelling.{name_room};

use fe_fields::next_u64;
use fe_state::Name;

/// The number of bytes in the field of a name, without the byte of its length: 16, or 32 for a long name.
pub fn name_room(is_long: bool) -> u8
    ensures { result ≡ name_room is_long }
{
    if is_long { 32 } else { 16 }
}

fn least_name(is_long: bool) -> usize
    ensures { result ≡ least_name is_long }
{
    if is_long { 17 } else { 0 }
}

/// The name of this length in the bytes of its field, or `None` if the length is wrong for the field or a
/// byte after the name is not zero.
#[tactic(auto, unfolding(crate::specs::Reading::name_of))]
pub fn name_of(is_long: bool, len: u8, cells: &[u8]) -> Option<Name>
    requires { length cells.now ≡ name_room is_long }
    ensures { result ≡ name_of is_long len cells.now }
{
    let len = usize::from(len);
    if least_name(is_long) <= len && len <= cells.len() && are_zero(&cells[len..]) {
        Name::new(&cells[..len])
    } else {
        None
    }
}

fn are_zero(bytes: &[u8]) -> bool
    ensures { result ≡ are_zero bytes.now }
{
    bytes.iter().all(|byte| *byte == 0)
}

/// The value, or `None` if bytes are left.
pub fn ended<T: Drop>(rest: &[u8], value: T) -> Option<T>
    ensures { result ≡ ended rest.now value }
{
    match rest {
        [] => Some(value),
        [_, ..] => None,
    }
}

/// The number in a body of eight bytes, or `None` if the body has another length.
pub fn number_of(body: &[u8]) -> Option<u64>
    ensures { result ≡ number_of body.now }
{
    let (number, rest) = next_u64(body)?;
    ended(rest, number)
}

/// The two numbers in a body of 16 bytes, or `None` if the body has another length.
pub fn two_numbers_of(body: &[u8]) -> Option<(u64, u64)>
    ensures { result ≡ two_numbers_of body.now }
{
    let (first, rest) = next_u64(body)?;
    let (second, rest) = next_u64(rest)?;
    ended(rest, (first, second))
}
