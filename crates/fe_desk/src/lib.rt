//! A desk: the front, its connections' streams and the keeper of the store, in one thread.
//!
//! Bytes of connections come in as steps, and the frames of the mails to them go out. The desk's trace
//! records what was handed to the store and what was written to each connection (`docs/model.md`, "The
//! desk").
#![tactic(auto)]

mod acting;
mod box_emptying;
mod connections;
mod desk;
mod desk_inner;
mod fault;
mod handed;
mod laws;
mod messages;
mod opening;
mod port;
mod port_places;
mod port_set;
mod running;
mod step;
mod storing;
mod trace;
mod written;

pub use desk::Desk;
pub use fault::DeskFault;
pub use laws::{
    acknowledged_answers_stand, any_session_may_be_asked, lives_join, steps_are_given_again,
    stops_are_lives,
};
pub use port::Port;
pub use running::{Ran, run};
pub use step::Step;
pub use trace::Trace;
pub use written::Written;
