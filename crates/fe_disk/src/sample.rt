//! Samples: some bytes that a file has to have, to see whether another process overwrote them
//! (`docs/store.md`, "The file").
ghost use Rattle.std.specs.Prelude.{◌≡◌, ◌↔◌, ◌+◌, ◌-◌, ◌^◌, ◌<◌, ◌≤◌, length, IsTrue, IfOk};

use crate::StoreFile;
use std::io;

/// The most bytes of a sample.
const ROOM: usize = 96;

/// The fewest bytes of a long write. A shorter one is no group.
pub(crate) const LONG: usize = 16;

/// Bytes of a file, and the offset of the first of them. There may be none.
#[derive(Clone, Copy)]
pub(crate) struct Sample {
    at: usize,
    bytes: [u8; ROOM],
    length: usize,
    ghost fits: { length ≤ 96 },
}

impl Sample {
    ghost use Rattle.fe_disk.specs.within.Samples.{Holds, StaysRight, IsOf, IsApart};

    /// No bytes, which every file has.
    pub(crate) const NONE: Sample = Sample {
        at: 0,
        bytes: [0; ROOM],
        length: 0,
    };

    /// The last of the bytes from `at` on.
    pub(crate) fn of(at: usize, bytes: &[u8]) -> Sample
        requires { at + length bytes.now < 2 ^ 64 }
        ensures { IsOf at bytes.now result }
    {
        let length = bytes.len().min(ROOM);
        let first = bytes.len() - length;
        let mut kept = [0; ROOM];
        kept[..length].copy_from_slice(&bytes[first..first + length]);
        Sample {
            at: at + first,
            bytes: kept,
            length,
        }
    }

    /// The sample after a write: the last bytes of a long one, and else what is beside it.
    pub(crate) fn after(&self, at: usize, written: &[u8]) -> Sample
        requires { at + length written.now < 2 ^ 64 }
        ensures right { StaysRight at written.now self.now result }
        ensures long { 16 ≤ length written.now → IsOf at written.now result }
    {
        if written.len() < LONG {
            return self.beside(at, written);
        }
        Sample::of(at, written)
    }

    /// The sample, or none if one of its bytes was written.
    pub(crate) fn beside(&self, at: usize, written: &[u8]) -> Sample
        ensures right { StaysRight at written.now self.now result }
        ensures apart { IsApart self.now at (length written.now) → result ≡ self.now }
    {
        if self.is_apart(at, written.len()) {
            return *self;
        }
        Sample::NONE
    }

    fn is_apart(&self, at: usize, count: usize) -> bool
        ensures { IsTrue result ↔ IsApart self.now at count }
    {
        (at <= self.at && count <= self.at - at) || (self.at <= at && self.length <= at - self.at)
    }

    /// Whether the file still has these bytes. It is one read, or none if there are no bytes.
    pub(crate) fn is_in<F: StoreFile>(&self, file: &F) -> io::Result<bool>
        ensures found { F.gives file.now → IfOk result
            (λ same. IsTrue same ↔ Holds (F.contents file.now) self.now) }
    {
        if self.length == 0 {
            return Ok(true);
        }
        let mut bytes = [0; ROOM];
        file.read_back(self.at, &mut bytes[..self.length])?;
        Ok(bytes[..self.length] == self.bytes[..self.length])
    }
}
