//! Writing big-endian fields, as frames, records and images have them (`docs/formats.md`, "Frames", "Entry
//! record" and "Image").

ghost use Rattle.std.specs.Prelude.{◌≡◌, ◌+◌, ◌≤◌, [], ◌∷◌, ◌++◌, length};
ghost use Rattle.std.specs.Int.{w32, w64, to_be_bytes};

use byteorder::{BigEndian, ByteOrder};
use std::marker::Model;

/// A buffer for at most `ROOM` bytes, to which fields are appended. It allocates nothing.
#[derive(Drop)]
pub struct Fields<const ROOM: usize> {
    cells: [u8; ROOM],
    len: usize,
}

impl<const ROOM: usize> Model for Fields<ROOM> {
    ghost use Rattle.std.specs.Prelude.{◌≡◌, ◌≤◌, ℕ, List, length, take};

    ghost Value = { List ℕ };

    ghost view = { λ f. take f.len f.cells };

    ghost invariant = { λ f. (f.len ≤ ROOM) × (length f.cells ≡ ROOM) };
}

impl<const ROOM: usize> Fields<ROOM> {
    /// A buffer with no fields.
    pub fn new() -> Self
        ensures { result ≡ [] }
    {
        Fields {
            cells: [0; ROOM],
            len: 0,
        }
    }

    /// The bytes appended so far.
    pub fn bytes(&self) -> &[u8]
        ensures { result.now ≡ self.now }
    {
        &self.cells[..self.len]
    }

    /// Appends bytes. There must be room for them.
    pub fn put(&mut self, bytes: &[u8])
        requires { length self.old + length bytes.now ≤ ROOM }
        ensures bytes { self.new ≡ self.old ++ bytes.now }
        ensures length { length self.new ≡ length self.old + length bytes.now }
    {
        let end = self.len + bytes.len();
        let cells = &mut self.cells[..];
        cells[self.len..end].copy_from_slice(bytes);
        self.len = end;
    }

    /// Appends a byte. There must be room for it.
    pub fn put_u8(&mut self, value: u8)
        requires { length self.old + 1 ≤ ROOM }
        ensures bytes { self.new ≡ self.old ++ value ∷ [] }
        ensures length { length self.new ≡ length self.old + 1 }
    {
        self.put(&[value]);
    }

    /// Appends a number as four bytes, big-endian. There must be room for them.
    pub fn put_u32(&mut self, value: u32)
        requires { length self.old + 4 ≤ ROOM }
        ensures bytes { self.new ≡ self.old ++ to_be_bytes w32 value }
        ensures length { length self.new ≡ length self.old + 4 }
    {
        self.put(&u32_bytes(value));
    }

    /// Appends a number as eight bytes, big-endian. There must be room for them.
    pub fn put_u64(&mut self, value: u64)
        requires { length self.old + 8 ≤ ROOM }
        ensures bytes { self.new ≡ self.old ++ to_be_bytes w64 value }
        ensures length { length self.new ≡ length self.old + 8 }
    {
        self.put(&u64_bytes(value));
    }
}

/// A number as four bytes, big-endian.
pub fn u32_bytes(value: u32) -> [u8; 4]
    ensures { result ≡ to_be_bytes w32 value }
{
    let mut bytes = [0; 4];
    BigEndian::write_u32(&mut bytes, value);
    bytes
}

/// A number as eight bytes, big-endian.
pub fn u64_bytes(value: u64) -> [u8; 8]
    ensures { result ≡ to_be_bytes w64 value }
{
    let mut bytes = [0; 8];
    BigEndian::write_u64(&mut bytes, value);
    bytes
}
