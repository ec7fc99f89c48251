ghost use Rattle.std.specs.Prelude.{◌≡◌, ◌+◌};
ghost use Rattle.fe_shared.specs.Seats.{both_seats, IsWholeLedger, one_seat};

use fe_history::Tally;
use std::marker::Model;
use std::sync::ledger::{Book, Share};

/// The seats of one side, the reading or the writing threads, of any connections, added up (`docs/model.md`,
/// "The hall"). Contracts see the number of connections, and how many calls (of reading threads) or mails (of
/// writing threads) their seats counted in all.
#[derive(Drop)]
pub struct Seats<L: Tally> {
    share: Share<L>,
    connections: u64,
}

impl<L: Tally> Model for Seats<L> {
    ghost use Rattle.std.specs.Prelude.{◌≡◌, ◌+◌, ◌<◌};
    ghost use Rattle.fe_shared.specs.Seats.{Seats, IsWholeLedger};

    ghost Value = { Seats };

    ghost view = { λ s. record { connections = s.connections; amount = s.share.amount } };

    ghost invariant = { λ s. (s.share.parts ≡ s.connections)
        × ((0 < s.connections) × IsWholeLedger L.all L.parts) };
}

impl<L: Tally> Seats<L> {
    /// The seat of one connection, with its part of the ledger.
    pub(crate) fn of(share: Share<L>) -> Seats<L>
        requires part { share.parts ≡ 1 }
        requires all { IsWholeLedger L.all L.parts }
        ensures { result ≡ one_seat share.amount }
    {
        Seats {
            share,
            connections: 1,
        }
    }

    /// Adds the seats of other connections of the same hall.
    pub fn add(&mut self, other: Seats<L>)
        ensures { self.new ≡ both_seats self.old other }
    {
        let Seats { share, connections } = other;
        self.share.merge(share);
        self.connections += connections;
    }

    /// The number of connections whose seats these are, at least 1.
    pub(crate) fn connections(&self) -> u64
        ensures { result ≡ self.now.connections }
    {
        self.connections
    }

    /// Shows that these seats, which must be those of all connections that were made, counted in all what the
    /// book has. `spare` has the other parts of the ledger: the hall's own, and one for each connection that
    /// was never made.
    pub(crate) fn audit(self, book: &mut Book<L>, spare: Share<L>)
        requires whole { spare.parts + self.connections ≡ L.all }
        requires nothing { spare.amount ≡ 0 }
        ensures { self.amount ≡ book.old.total }
    {
        let Seats { share, .. } = self;
        let mut all = spare;
        all.merge(share);
        book.audit(&mut all);
    }
}
