//! A connection to the server at the path of a socket (`docs/commands.md`, "Commands").

ghost use Rattle.std.specs.Prelude.{ℕ, List, IfOk, OnErr};

use crate::connection::{Broken, Connection};
use std::net::Net;

/// A connection to a server, as `femem call` makes one. What is proved of a call holds for each type of
/// connection whose members say what it carries, and when it is over.
pub trait ServerConnection: Connection {
    /// The connection was made to the server at this path, and is as it was made. Only `connect` makes it so.
    ghost is_to: { List ℕ → Self → Type 0 };

    /// No connection could be made to a server at this path.
    ghost is_refused: { List ℕ → Type 0 };

    /// Connects to the server at the path of a socket.
    fn connect<N: Net>(rt: &N, path: &str) -> Result<Self, Broken>
        ensures made { IfOk result (is_to path.now) }
        ensures refused { OnErr result (is_refused path.now) };
}
