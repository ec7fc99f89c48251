//! A look at a store, `femem look`: the text of the state in it, while a server may be writing it
//! (`docs/store.md`, "A copy while the store is written").
#![tactic(auto)]

mod fault;
mod header;
mod looking;
mod parts;
mod reading;
mod slot;
mod state_text;

pub use fault::LookFault;
pub use looking::{look, look_at, look_copy};
