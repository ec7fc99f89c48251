//! What the threads of a hall share, under its lock: one front, a ledger of its calls and one of the mails
//! that were taken (`docs/model.md`, "The hall").
//!
//! Each call of `Shared` is at most one event of the front. Each side of a connection has a seat that says
//! what it did, so that the books can be compared with the seats. What a call shows is a value of a type of
//! its own, which nothing else can make.
#![tactic(auto)]

mod bells;
mod call_seat;
mod free;
mod last_answer;
mod mail_log;
mod mail_seat;
mod message_log;
mod new_seats;
mod pace;
mod seats;
mod shared;
mod taking;
mod unconnected;
mod watchers;

pub use bells::{Bells, Owed, OwedByPost, Whom};
pub use call_seat::CallSeat;
pub use free::Free;
pub use last_answer::LastAnswer;
pub use mail_log::MailLog;
pub use mail_seat::MailSeat;
pub use message_log::MessageLog;
pub use new_seats::NewSeats;
pub use seats::Seats;
pub use shared::{
    AllDurable, AllMade, ConnectRight, CutBatch, CutOutcome, FullBook, HasStopped, HoldRight,
    InUse, NotOut, PARTS, PlaceThen, Posted, Rest, SeatMissing, Shared, Uncut, Unposted,
};
pub use taking::Taking;
pub use unconnected::Unconnected;
