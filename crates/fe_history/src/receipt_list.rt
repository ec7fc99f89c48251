//! Part of a hall's account: a receipt is the record of an answer that was handed out (`docs/headline.md`,
//! "Every acknowledged answer").

ghost use Rattle.std.specs.Prelude.{◌≡◌, ◌++◌, [], false, true, OnOk, OnErr};

use crate::receipt::Receipt;
use fe_memory::OutOfMemory;
use std::alloc::Global;
use std::marker::Model;

/// Receipts of write sides. The list is whole if it has those of each side that was added.
#[derive(Drop)]
pub struct ReceiptList {
    items: Vec<Receipt>,
    whole: bool,
}

impl Model for ReceiptList {
    ghost use Rattle.fe_history.specs.Acts.{ReceiptList};

    ghost Value = { ReceiptList };

    ghost view = { λ l. record { items = l.items.items; whole = l.whole } };
}

impl ReceiptList {
    /// The receipts of no side.
    pub(crate) fn new(alloc: Global) -> ReceiptList
        ensures { result ≡ record { items = []; whole = true } }
    {
        ReceiptList {
            items: Vec::new(alloc),
            whole: true,
        }
    }

    /// Receipts that need not be those of write sides. The list is not whole.
    pub fn of(items: Vec<Receipt>) -> ReceiptList
        ensures { result ≡ record { items = items.items; whole = false } }
    {
        ReceiptList {
            items,
            whole: false,
        }
    }

    /// Adds the receipts of one more side. If there is no memory for them, none of them is added, and the
    /// list is not whole any more.
    pub(crate) fn add(&mut self, items: &[Receipt]) -> Result<(), OutOfMemory>
        ensures ok { OnOk result (self.new ≡ record self.old { items = self.old.items ++ items.now }) }
        ensures err { OnErr result (self.new ≡ record self.old { whole = false }) }
    {
        if let Err(error) = self.items.extend_from_slice(items) {
            self.whole = false;
            return Err(OutOfMemory::from(error));
        }
        Ok(())
    }

    /// One more side has receipts that are not added.
    pub(crate) fn miss(&mut self)
        ensures { self.new ≡ record self.old { whole = false } }
    {
        self.whole = false;
    }

    /// Whether it has the receipts of each side that was added.
    pub fn is_whole(&self) -> bool
        ensures { result ≡ self.now.whole }
    {
        self.whole
    }

    /// The receipts, in the order in which they were added.
    pub fn as_slice(&self) -> &[Receipt]
        ensures { result.now ≡ self.now.items }
    {
        self.items.as_slice()
    }

    /// The receipts, without a copy.
    pub fn into_items(self) -> Vec<Receipt>
        ensures { result.items ≡ self.items }
    {
        let ReceiptList { items, .. } = self;
        items
    }
}
