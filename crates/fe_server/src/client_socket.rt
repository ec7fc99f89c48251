//! The socket of a client. No other file reads from it, writes to it or shuts it down; its bytes are noted as
//! they are read and written (`docs/proved.md`, "Server").

ghost use Rattle.std.specs.Prelude.{◌≡◌, []};

use crate::byte_log::ByteLog;
use crate::sides::HangUp;
use crate::stream::{StreamRead, StreamWrite};
use libc::net::{POLLIN, poll};
use libc::types::pollfd;
use std::alloc::Global;
use std::io;
use std::io::{Read, Write};
use std::net::Shutdown;
use std::os::fd::AsRawFd;
use std::os::unix::net::{UnixListener, UnixStream};
use std::sync::Arc;

/// The time limit of a `poll` that has none.
const FOREVER: i32 = -1;

/// The stream of a client. By itself it can be ended, and asked whether it has ended.
#[derive(Drop)]
pub(crate) struct ClientSocket {
    stream: UnixStream,
}

impl ClientSocket {
    /// Whether its stream takes no more bytes. This writes none.
    pub(crate) fn has_ended(&self) -> bool {
        let mut stream = &self.stream;
        stream.write(&[]).is_err()
    }

    /// Ends its stream.
    pub(crate) fn shut(&self) {
        let _ = self.stream.shutdown(Shutdown::Both);
    }

    /// Waits until its stream has bytes to read, or has ended. A signal ends the wait too.
    ///
    /// A thread that waits in a read is woken each time that the client takes a reply, since its socket has
    /// room again then; one that waits here is not.
    fn await_bytes(&self) {
        let mut waited = [pollfd {
            fd: self.stream.as_raw_fd(),
            events: POLLIN,
            revents: 0,
        }];
        let _ = poll(&mut waited, FOREVER);
    }
}

impl HangUp for ClientSocket {
    fn hang_up(&self) {
        self.shut();
    }
}

/// Reads from a client's stream.
#[derive(Drop)]
pub(crate) struct SocketReader {
    socket: Arc<ClientSocket, Global>,
}

impl Read for SocketReader {
    fn read(&mut self, buf: &mut [u8]) -> io::Result<usize> {
        self.socket.await_bytes();
        let mut stream = &self.socket.stream;
        stream.read(buf)
    }
}

/// Writes to a client's stream, and notes which bytes it was sent.
#[derive(Drop)]
pub(crate) struct SocketWriter {
    socket: Arc<ClientSocket, Global>,
    sent: ByteLog,
}

impl Write for SocketWriter {
    ghost use Rattle.std.specs.Prelude.{Some};

    ghost contents = { λ w. Some w.sent };

    fn write(&mut self, buf: &[u8]) -> io::Result<usize> {
        let mut stream = &self.socket.stream;
        let count = stream.write(buf)?;
        self.sent.note(&buf[..count]);
        Ok(count)
    }

    fn flush(&mut self) -> io::Result<()> {
        Ok(())
    }
}

/// The socket of a client from which nothing was read yet, and to which nothing was written.
#[derive(Drop)]
pub(crate) struct FreshSocket {
    pub(crate) socket: Arc<ClientSocket, Global>,
    /// It once more for each of its two directions.
    reading: Arc<ClientSocket, Global>,
    writing: Arc<ClientSocket, Global>,
}

impl FreshSocket {
    /// Waits for a client at a listener. One for which there is no memory is closed, and the error is
    /// `Other`.
    pub(crate) fn accept(alloc: Global, listener: &UnixListener) -> io::Result<FreshSocket> {
        let (stream, _) = listener.accept()?;
        match FreshSocket::of(alloc, stream) {
            Some(socket) => Ok(socket),
            None => Err(io::Error::from(io::ErrorKind::Other)),
        }
    }

    /// The socket with this stream. Without memory for it, the stream is closed.
    fn of(alloc: Global, stream: UnixStream) -> Option<FreshSocket> {
        let socket = Arc::new(alloc, ClientSocket { stream }).ok()?;
        let reading = Arc::try_clone(&socket).ok()?;
        let writing = Arc::try_clone(&socket).ok()?;
        Some(FreshSocket {
            socket,
            reading,
            writing,
        })
    }

    /// Its two directions, which begin now.
    pub(crate) fn begin(self) -> ServedSocket
        ensures received { result.from.received ≡ [] }
        ensures reads { result.from.reads ≡ 0 }
        ensures sent { result.to.writer.sent ≡ [] }
    {
        let FreshSocket {
            socket,
            reading,
            writing,
        } = self;
        ServedSocket {
            from: StreamRead::new(SocketReader { socket: reading }),
            to: StreamWrite::new(SocketWriter {
                socket: writing,
                sent: ByteLog::new(),
            }),
            socket,
        }
    }
}

/// The socket of a client that is served or was, with what it received and what it was sent.
#[derive(Drop)]
pub(crate) struct ServedSocket {
    pub(crate) from: StreamRead<SocketReader>,
    pub(crate) to: StreamWrite<SocketWriter>,
    pub(crate) socket: Arc<ClientSocket, Global>,
}
