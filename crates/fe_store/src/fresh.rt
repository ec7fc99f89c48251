//! Bytes of a store that may be overwritten without loss, when it is formatted or a `PATH.new` removed
//! (`docs/store.md`, "The file").

ghost use Rattle.std.specs.Prelude.{◌≡◌, ◌↔◌, IsTrue, Some, slice_get};
ghost use Rattle.fe_store.specs.Spare.{fresh_byte, IsSpareAt, AreSpare};

use fe_journal::image_of;

/// The header of slot 0 in a new store: its magic, generation 1, and the length of its image, 24
/// (`docs/formats.md`, "Device").
const HEADER: [u8; 20] = [
    70, 69, 77, 69, 77, 83, 84, 50, 0, 0, 0, 0, 0, 0, 0, 1, 0, 0, 0, 24,
];

/// The image in a new store: place 0, next array id 1, no arrays and no sessions (`docs/formats.md`,
/// "Image").
const IMAGE: [u8; 24] = [
    0, 0, 0, 0, 0, 0, 0, 0, 0, 0, 0, 0, 0, 0, 0, 1, 0, 0, 0, 0, 0, 0, 0, 0,
];

/// The byte that a new store has at this offset. The gate of its header, right before its image, is open.
fn fresh_byte(at: usize) -> u8
    ensures { result ≡ fresh_byte at }
{
    let image = image_of(0);
    if at >= image {
        return IMAGE.get(at - image).copied().unwrap_or(0);
    }
    if at == image - 1 {
        return 1;
    }
    HEADER.get(at).copied().unwrap_or(0)
}

/// Whether this byte of a store may be overwritten.
fn is_spare_at(at: usize, byte: u8, others: &[u8]) -> bool
    ensures { IsTrue result ↔ IsSpareAt others.now at byte }
{
    byte == 0 || byte == fresh_byte(at) || is_kept(at, byte, others)
}

/// Whether this byte is among the others, at the same place.
fn is_kept(at: usize, byte: u8, others: &[u8]) -> bool
    ensures { IsTrue result ↔ (slice_get others.now at ≡ Some byte) }
{
    match others.get(at) {
        Some(other) => *other == byte,
        None => false,
    }
}

/// Whether these bytes of a store may be overwritten: each is zero, is what formatting writes there, or is
/// kept in `others` at the same place.
pub(crate) fn is_spare(bytes: &[u8], others: &[u8]) -> bool
    ensures { IsTrue result ↔ AreSpare bytes.now others.now }
{
    for at in 0..bytes.len() {
        if !is_spare_at(at, bytes[at], others) {
            return false;
        }
    }
    true
}
