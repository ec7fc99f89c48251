//! The hall: one front under a lock, for the threads of connections and the thread that stores
//! (`ARCHITECTURE.md`, "Threads").
//!
//! Each hold of the lock is at most one event of the front. What is under it is `fe_shared`'s; what happened
//! in the hall, and the receipts that are left of it, are `fe_history`'s.
#![tactic(auto)]

mod baton;
mod breaking;
mod closing;
mod commit_end;
mod committing;
mod ended;
mod ends;
mod first_receipts;
mod hall;
mod halves;
mod hold;
mod read_count;
mod reading;
mod write_end;
mod writing;

pub use closing::{Audit, Closing, Unclosed, account_of, close, settle};
pub use commit_end::CommitEnd;
pub use committing::commit_side;
pub use ended::Ended;
pub use ends::ReadEnd;
pub use fe_history::{
    Account, Act, GatheredReceipts, History, NewHistory, Receipt, ReceiptList, Receipts, StoreSeat,
    Tally,
};
pub use fe_shared::{
    CallSeat, ConnectRight, Free, HasStopped, LastAnswer, MailLog, MailSeat, MessageLog, NewSeats,
    PARTS, SeatMissing, Seats, Unconnected,
};
pub use hall::Hall;
pub use halves::{Gate, HalfFault, MemoryRead, MemoryWrite, Open, ReadHalf, WriteHalf};
pub use read_count::ReadCount;
pub use reading::read_side;
pub use write_end::WriteEnd;
pub use writing::write_side;
