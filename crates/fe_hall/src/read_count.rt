//! How often a connection is read, for clauses alone, such as `turns` and `reads` of `read_side`
//! (`docs/proved.md`, "Server").

ghost use Rattle.std.specs.Prelude.{◌≡◌, ◌+◌};

use std::marker::Model;
use std::snapshot::Snapshot;

/// The reads that were made, one after another.
#[derive(Drop)]
enum Reads {
    None,
    After(Snapshot<Reads>),
}

/// How many reads were made of a half. It exists in proofs alone: it has no bound, and costs nothing.
#[derive(Drop)]
pub struct ReadCount {
    reads: Reads,
}

impl Model for ReadCount {
    ghost use Rattle.std.specs.Prelude.{ℕ};
    ghost use Rattle.fe_hall.specs.Reads.{count_of};

    ghost Value = { ℕ };

    ghost view = { λ c. count_of c.reads };
}

impl ReadCount {
    /// No read was made.
    pub fn none() -> ReadCount
        ensures { result ≡ 0 }
    {
        ReadCount { reads: Reads::None }
    }

    /// One more read was made.
    pub fn rise(&mut self)
        ensures { self.new ≡ self.old + 1 }
    {
        let before = Snapshot::of(&self.reads);
        self.reads = Reads::After(before);
    }
}
