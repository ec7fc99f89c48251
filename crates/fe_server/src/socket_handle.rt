//! A handle by which the stream of a connection is ended from outside (`docs/DECISIONS.md`, "Server").

ghost use Rattle.std.specs.Prelude.{◌≡◌, IfOk};

use crate::client_socket::ClientSocket;
use std::alloc::Global;
use std::sync::Arc;

/// Shows that a socket could not be shared once more. Only `SocketHandle::of` makes it.
#[derive(Drop)]
pub(crate) struct Unshared(());

/// Ends the stream of a connection from outside, and sees whether it has ended. It neither reads nor writes.
#[derive(Drop)]
pub(crate) struct SocketHandle {
    pub(crate) conn: u64,
    /// Whether a client waits for this connection's end, or did so in vain.
    is_expected: bool,
    socket: Arc<ClientSocket, Global>,
}

impl SocketHandle {
    /// A handle of the connection with this number and socket.
    pub(crate) fn of(
        conn: u64,
        socket: &Arc<ClientSocket, Global>,
    ) -> Result<SocketHandle, Unshared>
        ensures { IfOk result (λ handle. handle.conn ≡ conn) }
    {
        match Arc::try_clone(socket) {
            Ok(socket) => Ok(SocketHandle {
                conn,
                is_expected: false,
                socket,
            }),
            Err(_) => Err(Unshared(())),
        }
    }

    /// Whether the connection is about to end, and no client waits or waited for that: its stream takes no
    /// more bytes.
    pub(crate) fn is_ending(&self) -> bool {
        !self.is_expected && self.socket.has_ended()
    }

    /// Notes that a client waits for the end of the connection.
    pub(crate) fn expect_end(&mut self)
        ensures { self.new.conn ≡ self.old.conn }
    {
        self.is_expected = true;
    }

    /// Ends the stream.
    pub(crate) fn shut(&self) {
        self.socket.shut();
    }
}
