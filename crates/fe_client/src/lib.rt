//! The client of `femem call`: it sends each line of an input that is not empty to a server as one message,
//! and prints the reply before it takes the next line (`docs/commands.md`).
#![tactic(auto)]

mod asking;
mod calling;
mod connection;
mod fault;
mod input;
mod lost;
mod memory;
mod receiving;
mod separate;
mod server_connection;
mod socket_connection;
mod stream_connection;
mod streams;
mod talk;

pub use calling::{call, call_over, converse};
pub use connection::{Broken, Connection};
pub use fault::CallFault;
pub use memory::MemoryConnection;
pub use server_connection::ServerConnection;
pub use socket_connection::SocketConnection;
pub use stream_connection::StreamConnection;
pub use streams::Streams;
