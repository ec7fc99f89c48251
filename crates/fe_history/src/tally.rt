//! How proofs compare what a hall's books count with what its seats count (`docs/model.md`, "The hall").

ghost use Rattle.std.specs.Prelude.{ℕ};

use std::marker::Brand;
use std::sync::ledger::Ledger;

/// A ledger of a hall, divided into 2^62 + 1 parts whose counts add up to its own: one for each connection
/// that may ever be made and one for the hall. It exists in proofs alone. The ledger of the mails that were
/// taken also names the hall's history.
pub trait Tally: Ledger {
    ghost use Rattle.logbook.specs.Pages.{Book};

    /// How many parts it has in all.
    ghost all: { ℕ };

    /// The book of the hall's history (`logbook`), if this is the ledger of mails.
    ghost book: { Book };
}

impl Tally for Brand {
    ghost all = { 0 };

    ghost book = { record { number = 0; log_name = 0; cells_name = 0 } };
}
