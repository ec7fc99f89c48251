//! Which read sides (reading threads) wait for their boxes, that is until the mails there are taken
//! (`docs/DECISIONS.md`, "Hall").

ghost use Rattle.std.specs.Prelude.{◌≡◌, ℕ, IsTrue, OnOk};
ghost use Rattle.fe_front.specs.Posting.{may_have};
ghost use Rattle.fe_shared.specs.Marks.{waits};

use fe_front::ConnectionSet;
use fe_memory::{OutOfMemory, reserve_one};
use std::alloc::Global;

/// A read side that waits for its box.
#[derive(Clone, Copy)]
struct Watcher {
    conn: u64,
    /// Whether a mail was taken out of the box, or a part of its replies written, since it was noted that the
    /// side waits.
    moved: bool,
}

/// The connections whose read sides wait for their boxes, each once.
#[derive(Drop)]
pub(crate) struct Watchers {
    items: Vec<Watcher>,
}

impl Watchers {
    /// No read side waits.
    pub(crate) fn new(alloc: Global) -> Watchers {
        Watchers {
            items: Vec::new(alloc),
        }
    }

    /// Whether the read side of a connection waits.
    pub(crate) fn has(&self, conn: u64) -> bool
        ensures { result ≡ waits self.now.items.items conn }
    {
        self.items.iter().any(|watcher| watcher.conn == conn)
    }

    /// Notes that the read side of a connection waits. Fails if there is no memory for that.
    pub(crate) fn add(&mut self, conn: u64) -> Result<(), OutOfMemory>
        ensures { OnOk result (IsTrue (waits self.new.items.items conn)) }
    {
        self.items.retain(|watcher| watcher.conn != conn);
        reserve_one(&mut self.items)?;
        self.items.push_reserved(Watcher { conn, moved: false });
        Ok(())
    }

    /// Notes that the read side of a connection waits no more. Returns whether it was noted as waiting.
    pub(crate) fn remove(&mut self, conn: u64) -> bool
        ensures { result ≡ waits self.old.items.items conn }
    {
        let was = self.has(conn);
        self.items.retain(|watcher| watcher.conn != conn);
        was
    }

    /// Notes that a mail was taken out of the box of a connection, or a part of its replies written. Returns
    /// whether its read side waits.
    pub(crate) fn note_move(&mut self, conn: u64) -> bool
        ensures { result ≡ waits self.new.items.items conn }
    {
        if let Some(at) = self.items.iter().position(|other| other.conn == conn) {
            self.items[at].moved = true;
        }
        self.has(conn)
    }

    /// Whether the read side of a connection waits, and nothing was taken out of its box or written since
    /// that was noted.
    pub(crate) fn is_still(&self, conn: u64) -> bool {
        self.items
            .iter()
            .any(|watcher| watcher.conn == conn && !watcher.moved)
    }

    /// Adds the connections to a set.
    pub(crate) fn add_to(&self, set: &mut ConnectionSet)
        ensures added { (conn : ℕ) → IsTrue (waits self.now.items.items conn)
            → IsTrue (may_have set.new conn) }
        ensures still { (other : ℕ) → IsTrue (may_have set.old other) → IsTrue (may_have set.new other) }
    {
        for watcher in &self.items {
            set.add(watcher.conn);
        }
    }
}
