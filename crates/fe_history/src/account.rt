//! The account that a hall, which is what a server's threads share under one lock, leaves at its end
//! (`docs/headline.md`, "Every acknowledged answer").

ghost use Rattle.std.specs.Prelude.{◌≡◌, true};
ghost use Rattle.fe_history.specs.Acts.{IsAccountOf, IsLegal};

use crate::act::Act;
use crate::history::{History, HistoryWords, Law};
use crate::receipt::Receipt;
use crate::store_seat::StoreSeat;
use crate::tally::Tally;
use logbook::Seen;
use std::marker::Model;

/// What a hall leaves, however it ends: the receipts of its write sides, and its history.
#[derive(Drop)]
pub struct Account {
    receipts: Vec<Receipt>,
    history: Seen<Act, u64, Law>,
    /// Whether the hall's committing side, the thread that stores, noted every group in the history.
    own: bool,
}

impl Model for Account {
    ghost use Rattle.std.specs.Coded.{codes};
    ghost use Rattle.fe_history.specs.contracts.act.Act as acts;
    ghost use Rattle.fe_history.specs.Acts.{Account, IsLegal};

    ghost Value = { Account };

    ghost coded = { Prim.hlevel (codes, acts.the_row.coded) };

    ghost view = { λ a. record { receipts = a.receipts.items; history = a.history.log; own = a.own } };

    ghost invariant = { λ a. IsLegal a.history.log };
}

impl Account {
    /// The account of a server that ends before its hall is made.
    pub(crate) fn new(receipts: Vec<Receipt>, history: Seen<Act, u64, Law>) -> Account
        requires { IsLegal history.log }
        ensures { result ≡ record { receipts = receipts.items; history = history.log; own = true } }
    {
        Account {
            receipts,
            history,
            own: true,
        }
    }

    /// The account of a hall whose committing side had this seat. `history` is what the write sides saw.
    pub fn of<M: Tally>(
        history_words: &HistoryWords<M>,
        seat: StoreSeat<M>,
        receipts: Vec<Receipt>,
        history: History<M>,
    ) -> Account
        ensures { IsAccountOf seat receipts.items history result }
    {
        let (history, own) = seat.whole(history_words, history);
        Account {
            receipts,
            history: history.into_seen(),
            own,
        }
    }

    /// Whether the hall's committing side noted every batch in the history. Only a second committing side
    /// could make it false.
    pub fn own(&self) -> bool
        ensures { result ≡ self.now.own }
    {
        self.own
    }

    /// The receipts of the write sides that were kept: of each connection at most the first 1,024 answers
    /// that it took.
    pub fn receipts(&self) -> &[Receipt]
        ensures { result.now ≡ self.now.receipts }
    {
        self.receipts.as_slice()
    }
}
