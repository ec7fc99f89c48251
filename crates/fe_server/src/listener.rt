//! Part of the accepting thread of a server (`ARCHITECTURE.md`, "Threads").

use crate::client_socket::FreshSocket;
use crate::connection::Accepted;
use crate::register::Running;
use std::alloc::Global;
use std::io;
use std::os::fd::OwnedFd;
use std::os::unix::net::{UnixListener, UnixStream};

/// The listener of a server. It gives a connection only to a caller who shows that the server had not ended
/// when it asked (`Running`).
#[derive(Drop)]
pub(crate) struct Listener {
    listener: UnixListener,
}

impl Listener {
    pub(crate) fn new(listener: UnixListener) -> Listener {
        Listener { listener }
    }

    /// Another handle of the listener, as a stream. To shut that down ends a waiting `accept`; a listener has
    /// no such call.
    pub(crate) fn shutdown_socket(&self) -> io::Result<UnixStream> {
        let listener = self.listener.try_clone()?;
        Ok(UnixStream::from(OwnedFd::from(listener)))
    }

    /// Waits for a connection. One for which there is no memory is closed, and the error is `Other`.
    pub(crate) fn accept(&self, alloc: Global, _running: Running) -> io::Result<Accepted> {
        let socket = FreshSocket::accept(alloc, &self.listener)?;
        Ok(Accepted::of(socket))
    }
}
