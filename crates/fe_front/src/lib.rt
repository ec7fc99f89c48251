//! The front of the server: it takes the events of connections, makes entries of the history, and mails the
//! outcome of an entry once the batch that has it is stored and posted (`docs/model.md`, "The front").
#![tactic(auto)]

mod asked;
mod calling;
mod connection_set;
mod front;
mod laws;
mod out;
mod outcome;
mod parting;
mod posting;
mod sessions;

pub use asked::is_same;
pub use connection_set::{ConnectionSet, REMAINDERS};
pub use fe_mail::{Books, Mail, Refusal, ReportText};
pub use front::Front;
pub use laws::{
    books_rise, boxes_stay_short, limits_are, mails_stay_durable, steps_are_few, steps_are_legal,
};
pub use outcome::{Outcome, StrangeBatch, TakenCall};
