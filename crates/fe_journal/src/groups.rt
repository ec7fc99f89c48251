ghost use Rattle.std.specs.Prelude.{◌≡◌, ◌+◌, ◌<◌, ◌≤◌, ℕ, List, [], ◌∷◌, length, IsNone, IfSome, IsSomeAnd};
ghost use Rattle.fe_journal.specs.Layout.{area_bytes, device_bytes};
ghost use Rattle.fe_journal.specs.Contents.{Lists};

use byteorder::{BigEndian, ByteOrder};
use std::marker::Model;

/// A cursor over the open groups in the bytes of a journal area (`docs/formats.md`, "Journal area").
#[derive(Drop)]
pub struct Groups {
    bytes: Vec<u8>,
    start: usize,
    at: usize,
}

impl Model for Groups {
    ghost use Rattle.fe_journal.specs.Contents.{Cursor};

    ghost Value = { Cursor };

    ghost use Rattle.fe_journal.specs.within.CursorFields.{cursor_of, IsCursor};

    ghost view = { cursor_of };

    ghost invariant = { IsCursor };
}

impl Groups {
    // A cursor before the first group of a journal area, which begins at `start` of the device.
    pub(crate) fn new(bytes: Vec<u8>, start: usize) -> Groups
        requires start { start < device_bytes }
        requires area { length bytes.items ≡ area_bytes }
        ensures { result ≡ record { bytes = bytes.items; start = start; at = 0 } }
    {
        Groups {
            bytes,
            start,
            at: 0,
        }
    }

    /// The payload of the next group, if there is one.
    pub fn payload(&self) -> Option<&[u8]>
        ensures next { (payload : List ℕ) (rest : List (List ℕ)) → Lists self.now (payload ∷ rest)
            → IsSomeAnd result (λ p. p.now ≡ payload) }
        ensures none { Lists self.now [] → IsNone result }
        ensures within { IfSome result (λ p. self.now.at + (5 + length p.now) ≤ area_bytes) }
    {
        if self.at >= self.bytes.len() - 5 || self.bytes[self.at] != 1 {
            return None;
        }
        let length = BigEndian::read_u32(&self.bytes[self.at + 1..]) as usize;
        let begin = self.at + 5;
        if length > self.bytes.len() - begin {
            return None;
        }
        Some(&self.bytes[begin..begin + length])
    }

    /// The offset on the device where the payload of the next group begins, in bytes.
    pub fn offset(&self) -> usize
        ensures value { result ≡ self.now.start + self.now.at + 5 }
        ensures within { result < device_bytes + area_bytes + 5 }
    {
        self.start + self.at + 5
    }

    /// Moves past the next group, if there is one.
    pub fn skip(&mut self)
        ensures at { (payload : List ℕ) (rest : List (List ℕ)) → Lists self.old (payload ∷ rest)
            → self.new ≡ record self.old { at = self.old.at + (5 + length payload) } }
        ensures rest { (payload : List ℕ) (rest : List (List ℕ)) → Lists self.old (payload ∷ rest)
            → Lists self.new rest }
        ensures none { Lists self.old [] → self.new ≡ self.old }
    {
        let length = match self.payload() {
            None => return,
            Some(payload) => payload.len(),
        };
        self.at += 5 + length;
    }
}
