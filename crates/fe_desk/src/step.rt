//! The steps of a desk, a server in one thread: what comes to it, and what it does to its store
//! (`docs/model.md`, "The desk").

ghost use Rattle.std.specs.Prelude.{◌≡◌, true};

/// A step of a desk. A step with nothing to act on only writes the mails, replies on their way out, that an
/// earlier step left unwritten.
#[derive(Drop)]
pub enum Step {
    /// A connection comes, with a stream of its own. If its number is connected, nothing is done.
    Connect { conn: u64 },
    /// The next bytes of a connection's stream.
    Bytes { conn: u64, piece: Vec<u8> },
    /// A connection goes.
    Gone { conn: u64 },
    /// The pending entries become a batch, if none is out (cut and not yet posted).
    Cut,
    /// The batch that is cut is stored.
    Append,
    /// The batch that is stored is posted: its entries' mails go into the boxes of their connections.
    Post,
    /// A checkpoint, which writes an image of the state into the other slot of the store, begins.
    CheckBegin,
    /// A slice of the checkpoint is written.
    CheckStep,
    /// The checkpoint is finished.
    CheckFinish,
}

impl Step {
    /// Whether no box had a mail before the step (`quiet`) and the step posts the batch that is stored, if
    /// there is one.
    pub(crate) fn posts(&self, quiet: bool) -> bool
        ensures { result ≡ true → (quiet ≡ true) × (self.now ≡ Step.Post) }
    {
        quiet && matches!(self, Step::Post)
    }
}
