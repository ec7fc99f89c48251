//! The connection of `femem call`: a Unix socket (`docs/commands.md`, "Commands").

use crate::connection::{Broken, Connection};
use crate::lost::{Lost, receive_some};
use crate::server_connection::ServerConnection;
use fe_streams::{Incoming, write_some};
use std::net::Net;
use std::os::unix::net::UnixStream;

/// A Unix socket, connected to a server. No contract can say which bytes it carries, nor that no server was
/// there. What is proved of a call is proved for every connection whose members say so.
#[derive(Drop)]
pub struct SocketConnection {
    stream: UnixStream,
    lost: Option<Lost>,
}

impl Connection for SocketConnection {
    ghost use Rattle.std.specs.Prelude.{None, IsSome};

    ghost sent = { λ c. None };

    ghost received = { λ c. None };

    ghost is_over = { λ c. IsSome c.lost };

    fn send(&mut self, bytes: &[u8]) -> Result<usize, Broken> {
        match write_some(&mut &self.stream, bytes) {
            Ok(count) => Ok(count),
            Err(failure) => {
                self.lost = Some(Lost::Failed(failure));
                Err(Broken)
            }
        }
    }

    fn receive(&mut self, buffer: &mut [u8]) -> Result<usize, Broken> {
        match receive_some(&mut Incoming::new(&self.stream), buffer) {
            Ok(count) => Ok(count),
            Err(why) => {
                self.lost = Some(why);
                Err(Broken)
            }
        }
    }
}

impl ServerConnection for SocketConnection {
    ghost use Rattle.std.specs.Prelude.{⊤};

    ghost is_to = { λ path c. ⊤ };

    ghost is_refused = { λ path. ⊤ };

    fn connect<N: Net>(rt: &N, path: &str) -> Result<SocketConnection, Broken> {
        match UnixStream::connect(rt, path) {
            Ok(stream) => Ok(SocketConnection { stream, lost: None }),
            Err(_) => Err(Broken),
        }
    }
}
