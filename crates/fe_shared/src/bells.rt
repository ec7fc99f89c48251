//! The bells of a hall, its condition variables, and the rings that a hold owes to those who wait for them
//! (`ARCHITECTURE.md`, "Threads").

ghost use Rattle.std.specs.Prelude.{◌≡◌, ◌&&◌, ℕ, false, length, not};
ghost use Rattle.fe_front.specs.Posting.{may_have};
ghost use Rattle.fe_shared.specs.Bells.{owed_by_message, sides_if};

use fe_front::{ConnectionSet, REMAINDERS};
use std::sync::Condvar;

/// Who waits for what a hold did, and is owed a ring.
#[derive(Clone, Copy, PartialEq, Eq)]
pub enum Whom {
    Nobody,
    /// The committing side, which waits for entries.
    Committing,
    /// The sides of this connection.
    Sides(u64),
    /// The committing side, and the sides of this connection.
    CommittingAndSides(u64),
    /// The read sides that wait for room for an event.
    Room,
    /// Everybody.
    All,
}

impl Whom {
    /// Whom a message of this connection concerns, if the front's books had counted `before` mails before it
    /// and `after` after it.
    pub(crate) fn of_message(conn: u64, before: u64, after: u64) -> Whom
        ensures { result ≡ owed_by_message conn before after }
    {
        if before == after {
            Whom::Committing
        } else {
            Whom::CommittingAndSides(conn)
        }
    }

    /// Whom a mail's being taken concerns: if no more are in the box, the read side, if that waits.
    pub(crate) fn of_look(more: bool, watched: bool, conn: u64) -> Whom
        ensures { result ≡ sides_if (not more && watched) conn }
    {
        Whom::sides_if(!more && watched, conn)
    }

    /// The sides of this connection, if `concerns`.
    pub(crate) fn sides_if(concerns: bool, conn: u64) -> Whom
        ensures { result ≡ sides_if concerns conn }
    {
        if concerns {
            Whom::Sides(conn)
        } else {
            Whom::Nobody
        }
    }
}

/// The ring that a hold owes. It is not `Drop`: only `Bells::ring` uses it up, so an event whose ring is left
/// out does not compile.
pub struct Owed {
    pub(crate) whom: Whom,
}

impl Owed {
    /// Nothing is owed yet.
    pub fn none() -> Owed
        ensures { result.whom ≡ Whom.Nobody }
    {
        Owed { whom: Whom::Nobody }
    }
}

/// The rings that a post owes to the sides of these connections. It is not `Drop`: only `Bells::ring_posted`
/// uses it up.
pub struct OwedByPost {
    pub(crate) changed: ConnectionSet,
}

impl OwedByPost {
    /// Nothing is owed yet.
    pub fn none() -> OwedByPost
        ensures { (conn : ℕ) → may_have result.changed conn ≡ false }
    {
        OwedByPost {
            changed: ConnectionSet::new(),
        }
    }
}

/// The bells of a hall. Only `Shared::new` makes them, so what one hold owes is not rung at bells that nobody
/// waits for.
#[derive(Drop)]
pub struct Bells {
    /// It is rung after each message, since entries may be pending then, and when the hall is stopped.
    work: Condvar,
    /// It is rung when there is room for an event again, since the pending entries were cut, and when the
    /// hall is stopped.
    room: Condvar,
    /// These are rung for the sides of a connection, each for the connections whose numbers have one
    /// remainder by 256.
    sides: Vec<Condvar>,
    ghost all_sides: { length sides.items ≡ 256 },
}

impl Bells {
    /// Bells for which nobody waits.
    pub(crate) fn new(sides: Vec<Condvar>) -> Bells
        requires { length sides.items ≡ 256 }
    {
        Bells {
            work: Condvar::new(),
            room: Condvar::new(),
            sides,
        }
    }

    /// Rings for whom a hold owes it.
    pub fn ring(&self, owed: Owed) {
        let Owed { whom } = owed;
        match whom {
            Whom::Nobody => {}
            Whom::Committing => self.work.notify_one(),
            Whom::Sides(conn) => self.sides(conn).notify_all(),
            Whom::CommittingAndSides(conn) => {
                self.work.notify_one();
                self.sides(conn).notify_all();
            }
            Whom::Room => self.room.notify_all(),
            Whom::All => self.ring_all(),
        }
    }

    /// Rings for the sides of the connections whose boxes a post changed, or whose read sides wait.
    pub fn ring_posted(&self, owed: OwedByPost) {
        let OwedByPost { changed } = owed;
        for at in 0..self.sides.len() {
            if changed.may_have(at as u64) {
                self.sides[at].notify_all();
            }
        }
    }

    fn ring_all(&self) {
        self.work.notify_all();
        self.room.notify_all();
        for bell in &self.sides {
            bell.notify_all();
        }
    }

    /// The bell of the committing side.
    pub fn work(&self) -> &Condvar {
        &self.work
    }

    /// The bell of those who wait for room.
    pub fn room(&self) -> &Condvar {
        &self.room
    }

    /// The bell of the sides of a connection. Connections with the same remainder share it.
    pub fn sides(&self, conn: u64) -> &Condvar {
        &self.sides[(conn % REMAINDERS) as usize]
    }
}
