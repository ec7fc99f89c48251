//! What happened in a hall, which is what a server's threads share, in the one order that they agree on, and
//! the receipts that are left (`docs/headline.md`, "Every acknowledged answer").
//!
//! The history exists in proofs alone, but for two counters. Each thread has a beginning of it, and adds acts
//! that may follow those before them: a batch is cut, a batch is stored, a connection asks for a session, an
//! answer is handed to a connection. A receipt is compared with what the store keeps and with what clients
//! sent.
#![tactic(auto)]

mod account;
mod act;
mod gathered_receipts;
mod history;
mod receipt;
mod receipt_list;
mod store_seat;
mod strange;
mod tally;

pub use account::Account;
pub use act::Act;
pub use gathered_receipts::{GatheredReceipts, Receipts};
pub use history::{History, HistoryWords, NewHistory};
pub use receipt::Receipt;
pub use receipt_list::ReceiptList;
pub use store_seat::{StoreSeat, Unnoted};
pub use strange::{LISTED, first_strange};
pub use tally::Tally;
