//! The receipts of a hall's write sides, the writing threads of its connections (`docs/headline.md`, "Every
//! acknowledged answer").

ghost use Rattle.std.specs.Prelude.{◌≡◌, ◌++◌, [], true, false, OnOk, OnErr};
ghost use Rattle.fe_history.specs.Acts.{EachIssued, GatheredReceipts, GoesOnFrom, Receipts};

use crate::history::History;
use crate::receipt::Receipt;
use crate::receipt_list::ReceiptList;
use crate::tally::Tally;
use fe_memory::OutOfMemory;
use std::alloc::Global;
use std::marker::Model;

/// The receipts of one write side, and the history in which each of their answers was issued, that is handed
/// out.
#[derive(Drop)]
pub struct Receipts<M: Tally> {
    conn: u64,
    items: Vec<Receipt>,
    history: History<M>,
}

impl<M: Tally> Model for Receipts<M> {
    ghost use Rattle.std.specs.Coded.{codes};
    ghost use Rattle.fe_history.specs.contracts.act.Act as acts;
    ghost use Rattle.fe_history.specs.Acts.{EachIssued, Receipts};

    ghost Value = { Receipts };

    ghost coded = { Prim.hlevel (codes, acts.the_row.coded) };

    ghost view = { λ r. record { conn = r.conn; items = r.items.items; history = r.history } };

    ghost invariant = { λ r. EachIssued r.items.items r.history };
}

impl<M: Tally> Receipts<M> {
    /// The receipts of the write side of this connection.
    pub fn of(conn: u64, items: Vec<Receipt>, history: History<M>) -> Receipts<M>
        requires { EachIssued items.items history }
        ensures { result ≡ record { conn = conn; items = items.items; history = history } }
    {
        Receipts {
            conn,
            items,
            history,
        }
    }
}

/// The receipts of write sides of one hall, and the history in which each of their answers was issued.
#[derive(Drop)]
pub struct GatheredReceipts<M: Tally> {
    list: ReceiptList,
    history: History<M>,
}

impl<M: Tally> Model for GatheredReceipts<M> {
    ghost use Rattle.std.specs.Coded.{codes};
    ghost use Rattle.fe_history.specs.contracts.act.Act as acts;
    ghost use Rattle.fe_history.specs.Acts.{EachIssued, GatheredReceipts};

    ghost Value = { GatheredReceipts };

    ghost coded = { Prim.hlevel (codes, acts.the_row.coded) };

    ghost view = { λ g. record { items = g.list.items; whole = g.list.whole; history = g.history } };

    ghost invariant = { λ g. EachIssued g.list.items g.history };
}

impl<M: Tally> GatheredReceipts<M> {
    /// The receipts of no side, which are whole.
    pub fn none(alloc: Global, history: History<M>) -> GatheredReceipts<M>
        ensures { result ≡ record { items = []; whole = true; history = history } }
    {
        GatheredReceipts {
            list: ReceiptList::new(alloc),
            history,
        }
    }

    /// Adds the receipts of another side of the same hall. If there is no memory for them, it is not whole
    /// any more.
    pub fn add(&mut self, other: Receipts<M>) -> Result<(), OutOfMemory>
        ensures ok { OnOk result
            ((self.new.items ≡ self.old.items ++ other.items) × (self.new.whole ≡ self.old.whole)) }
        ensures err { OnErr result ((self.new.items ≡ self.old.items) × (self.new.whole ≡ false)) }
        ensures history { GoesOnFrom self.old.history other.history self.new.history }
    {
        let Receipts { items, history, .. } = other;
        self.history.learn(&history);
        drop(history);
        let added = self.list.add(items.as_slice());
        drop(items);
        added
    }

    /// Learns what another side of the same hall saw, and drops that side's receipts. It is not whole any
    /// more.
    pub fn learn(&mut self, other: Receipts<M>)
        ensures items { self.new.items ≡ self.old.items }
        ensures whole { self.new.whole ≡ false }
        ensures history { GoesOnFrom self.old.history other.history self.new.history }
    {
        let Receipts { items, history, .. } = other;
        drop(items);
        self.history.learn(&history);
        drop(history);
        self.list.miss();
    }

    /// The receipts. The list is whole if there was no `learn`, and memory sufficed for each `add`.
    pub fn list(&self) -> &ReceiptList
        ensures items { result.now.items ≡ self.now.items }
        ensures whole { result.now.whole ≡ self.now.whole }
    {
        &self.list
    }

    /// The receipts, and the history with their answers.
    pub fn into_parts(self) -> (ReceiptList, History<M>)
        ensures items { result.0.items ≡ self.items }
        ensures whole { result.0.whole ≡ self.whole }
        ensures history { result.1 ≡ self.history }
        ensures issued { EachIssued result.0.items result.1 }
    {
        let GatheredReceipts { list, history } = self;
        (list, history)
    }
}
