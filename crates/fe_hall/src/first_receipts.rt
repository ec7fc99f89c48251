//! The receipts that a write side keeps: those of the first answers that it took (`docs/model.md`, "The
//! hall").

ghost use Rattle.std.specs.Prelude.{◌≡◌, ◌≤◌, ◌<◌, [], ◌∷◌, length, OnOk, vec_len, vec_capacity};
ghost use Rattle.fe_hall.specs.Writes.{receipts_with};

use fe_history::Receipt;
use fe_mail::Mail;
use fe_memory::{OutOfMemory, reserve_one};
use std::alloc::Global;

/// The most receipts that a side keeps.
const RECEIPTS: usize = 1024;

/// The receipts of the first 1,024 answers.
#[derive(Drop)]
pub(crate) struct FirstReceipts {
    pub(crate) list: Vec<Receipt>,
    ghost few: { length list.items ≤ 1024 },
}

impl FirstReceipts {
    pub(crate) fn new(alloc: Global) -> FirstReceipts
        ensures { result.list.items ≡ [] }
    {
        FirstReceipts {
            list: Vec::new(alloc),
        }
    }

    /// Makes room for the receipt of one more answer, unless that is none of the first.
    pub(crate) fn reserve(&mut self) -> Result<(), OutOfMemory>
        ensures items { self.new.list.items ≡ self.old.list.items }
        ensures room { OnOk result (length self.new.list.items < 1024
            → vec_len self.new.list < vec_capacity self.new.list) }
    {
        if self.list.len() < RECEIPTS {
            reserve_one(&mut self.list)?;
        }
        Ok(())
    }

    /// Keeps the receipt of a mail to a connection, if that is one of the first answers.
    pub(crate) fn keep(&mut self, conn: u64, mail: &Mail)
        requires room { length self.old.list.items < 1024
            → vec_len self.old.list < vec_capacity self.old.list }
        ensures { self.new.list.items ≡ receipts_with conn self.old.list.items (mail.now ∷ []) }
    {
        if self.list.len() >= RECEIPTS {
            return;
        }
        if let Some(receipt) = Receipt::of(conn, mail) {
            if self.list.push(receipt).is_err() {
                unreachable!();
            }
        }
    }
}
