//! A set of connections, such as those whose boxes a batch changed. A connection's box has its outgoing mails
//! (`docs/model.md`, "Mails, connections and books").

ghost use Rattle.std.specs.Prelude.{◌≡◌, ◌≢◌, ◌%◌, ℕ, true, false, IsTrue};
ghost use Rattle.fe_front.specs.Posting.{may_have, remainder_count};

/// How many remainders there are. A set tells two connections apart only if their numbers leave different
/// remainders when divided by this.
pub const REMAINDERS: u64 = 256;

/// A set of connections that takes a fixed amount of memory. With each one that was added, it has all whose
/// numbers leave the same remainder.
#[derive(Drop)]
pub struct ConnectionSet {
    remainders: [bool; REMAINDERS as usize],
}

impl ConnectionSet {
    /// The empty set.
    pub fn new() -> ConnectionSet
        ensures { (conn : ℕ) → may_have result conn ≡ false }
    {
        ConnectionSet {
            remainders: [false; REMAINDERS as usize],
        }
    }

    /// Adds a connection.
    pub fn add(&mut self, conn: u64)
        ensures added { IsTrue (may_have self.new conn) }
        ensures still { (other : ℕ) → IsTrue (may_have self.old other) → IsTrue (may_have self.new other) }
        ensures only { (other : ℕ) → other % remainder_count ≢ conn % remainder_count
            → may_have self.new other ≡ may_have self.old other }
    {
        self.remainders[(conn % REMAINDERS) as usize] = true;
    }

    /// Adds all connections.
    pub fn add_all(&mut self)
        ensures { (conn : ℕ) → may_have self.new conn ≡ true }
    {
        self.remainders = [true; REMAINDERS as usize];
    }

    /// Whether a connection was added, or one with the same remainder.
    pub fn may_have(&self, conn: u64) -> bool
        ensures { result ≡ may_have self.now conn }
    {
        self.remainders[(conn % REMAINDERS) as usize]
    }
}
