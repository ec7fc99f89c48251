//! The server: a hall, the front that its threads share, served at a Unix socket over the store in a file
//! (`ARCHITECTURE.md`, "Threads").
//!
//! Each connection has two threads, one more accepts clients, and one stores. They share the hall under one
//! lock, under a second one the register, which says which connections are there, and under a third what
//! those that ended did.
#![tactic(auto)]

mod accepting;
mod arrival;
mod binding;
mod books;
mod byte_log;
mod client_socket;
mod connection;
mod failed;
mod listener;
mod opening;
mod reads;
mod register;
mod running_server;
mod serve_fault;
mod served;
mod server;
mod sides;
mod socket_handle;
mod stop_fault;
mod stream;
mod transcript;
mod transcript_log;

pub use books::books_text;
pub use failed::Failed;
pub use opening::serve;
pub use serve_fault::ServeFault;
pub use served::Served;
pub use server::serve_store;
pub use stop_fault::StopFault;
pub use stream::{StreamRead, StreamWrite};
pub use transcript::Transcript;
pub use transcript_log::TranscriptLog;
