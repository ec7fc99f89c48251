//! The bytes that a connection's socket received, or was sent, for clauses alone (`docs/proved.md`,
//! "Server").

ghost use Rattle.std.specs.Prelude.{◌≡◌, ◌++◌, ◌∷◌, []};

use std::marker::Model;
use std::snapshot::Snapshot;

/// Bytes, one after another.
#[derive(Drop)]
enum Bytes {
    None,
    Then(Snapshot<Bytes>, Snapshot<u8>),
}

/// Bytes in their order. The list exists in proofs alone: the code keeps no byte of it.
#[derive(Drop)]
pub struct ByteLog {
    bytes: Bytes,
}

impl Model for ByteLog {
    ghost use Rattle.std.specs.Prelude.{List, ℕ};
    ghost use Rattle.fe_server.specs.Transcripts.{bytes_in};

    ghost Value = { List ℕ };

    ghost view = { λ l. bytes_in l.bytes };
}

impl ByteLog {
    /// No bytes.
    pub(crate) fn new() -> ByteLog
        ensures { result ≡ [] }
    {
        ByteLog { bytes: Bytes::None }
    }

    /// These bytes came next.
    pub(crate) fn note(&mut self, bytes: &[u8])
        ensures { self.new ≡ self.old ++ bytes.now }
    {
        for byte in bytes {
            self.note_one(byte);
        }
    }

    /// This byte came next.
    fn note_one(&mut self, byte: &u8)
        ensures { self.new ≡ self.old ++ byte.now ∷ [] }
    {
        let before = Snapshot::of(&self.bytes);
        self.bytes = Bytes::Then(before, Snapshot::of(byte));
    }
}
