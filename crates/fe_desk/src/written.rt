//! What a desk has written to its connections (`docs/model.md`, "The desk"). A frame is the bytes of a reply
//! (`docs/formats.md`, "Frames").

ghost use Rattle.std.specs.Prelude.{◌≡◌, ◌++◌, [], OnOk, OnErr};
ghost use Rattle.fe_wire.specs.Spelling.{reply_spelling};
ghost use Rattle.fe_desk.specs.Messages.{AreReplies};

use fe_memory::OutOfMemory;
use fe_messages::Reply;
use std::alloc::Global;
use std::marker::Model;

/// What is written to a connection number: whole frames of replies.
#[derive(Drop)]
pub struct Written {
    bytes: Vec<u8>,
}

impl Model for Written {
    ghost use Rattle.std.specs.Prelude.{List, ℕ};
    ghost use Rattle.fe_desk.specs.Messages.{AreReplies};

    ghost Value = { List ℕ };

    ghost view = { λ w. w.bytes.items };

    ghost invariant = { λ w. AreReplies w.bytes.items };
}

impl Written {
    /// An output to which nothing is written.
    pub(crate) fn new(alloc: Global) -> Written
        ensures { result ≡ [] }
    {
        Written {
            bytes: Vec::new(alloc),
        }
    }

    /// Writes the frame of a reply. If there is no memory for it, nothing is written.
    pub(crate) fn put(&mut self, reply: &Reply) -> Result<(), OutOfMemory>
        ensures ok { OnOk result (self.new ≡ self.old ++ reply_spelling reply.now) }
        ensures err { OnErr result (self.new ≡ self.old) }
    {
        reply.put(&mut self.bytes)
    }

    /// Nothing is written any more.
    pub(crate) fn clear(&mut self)
        ensures { self.new ≡ [] }
    {
        self.bytes.clear();
    }

    /// The bytes that were written.
    pub fn as_slice(&self) -> &[u8]
        ensures bytes { result.now ≡ self.now }
        ensures frames { AreReplies result.now }
    {
        self.bytes.as_slice()
    }
}
