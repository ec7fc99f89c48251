//! A connection: its socket and its number (`ARCHITECTURE.md`, "Threads"). The socket's bytes are read and
//! written by `client_socket.rt` alone, which notes them. Seats are the hall's (`docs/model.md`, "The hall").

ghost use Rattle.std.specs.Prelude.{◌≡◌, List, [], IfOk, IsSome};
ghost use Rattle.fe_mail.specs.declared.mail.Mail.{Mail as TakenMail};
ghost use Rattle.fe_history.specs.Acts.{AreIssued};
ghost use Rattle.fe_hall.specs.Reads.{HandlesStream};
ghost use Rattle.fe_hall.specs.Writes.{AreTaken, IsWritten};
ghost use Rattle.fe_server.specs.Sides.{most_reads};

use crate::client_socket::{ClientSocket, FreshSocket, ServedSocket};
use crate::reads::ReadLimit;
use crate::register::{Admission, Full};
use crate::running_server::RunningServer;
use crate::sides::{ConnectionOutcome, ConnectionSeats, serve_streams};
use crate::socket_handle::{SocketHandle, Unshared};
use fe_hall::{Gate, ReadEnd, Tally, WriteEnd};
use std::alloc::Global;
use std::sync::Wait;
use std::thread::Threads;
use std::time::Clock;

/// The size of the stack of each thread of a connection, in bytes.
pub(crate) const STACK: usize = 1 << 20;

/// A client that was accepted and is not admitted yet. It is not `Drop`: it becomes a connection, or its
/// socket is closed because the register had no room for it.
pub(crate) struct Accepted {
    socket: FreshSocket,
}

impl Accepted {
    /// The client with this socket.
    pub(crate) fn of(socket: FreshSocket) -> Accepted {
        Accepted { socket }
    }

    /// Closes the socket of a client that was not admitted.
    pub(crate) fn close(self, full: Full) {
        let Accepted { socket } = self;
        drop(full);
        drop(socket);
    }
}

/// A connection that was admitted: its number and its socket. It is not `Drop`, since the admission has to be
/// given back.
pub(crate) struct Connection {
    pub(crate) admission: Admission,
    socket: FreshSocket,
}

impl Connection {
    /// The connection of this client. Its number is that of the admission.
    pub(crate) fn of(accepted: Accepted, admission: Admission) -> Connection
        ensures { result.admission ≡ admission }
    {
        let Accepted { socket } = accepted;
        Connection { admission, socket }
    }

    /// A handle by which others end its stream, and see whether it has ended.
    pub(crate) fn handle(&self) -> Result<SocketHandle, Unshared>
        ensures { IfOk result (λ handle. handle.conn ≡ self.now.admission.conn) }
    {
        SocketHandle::of(self.admission.conn, &self.socket.socket)
    }

    /// Serves its client, until both sides have ended. If the writing thread can't be started, nothing is
    /// read.
    pub(crate) fn serve<
        C: Tally + Send + Sync,
        M: Tally + Send + Sync,
        G: Gate + Sync,
        R: Clock + Threads + Wait + Sync,
    >(
        self,
        rt: &R,
        alloc: Global,
        server: &RunningServer<C, M>,
        gate: &G,
        seats: ConnectionSeats<C, M>,
        reads: ReadLimit,
    ) -> (ServedConnection, ConnectionOutcome<C, M>)
        requires seats { seats.calls.conn ≡ self.admission.conn }
        ensures admission { result.0.admission ≡ self.admission }
        ensures own { result.1.write.seat.conn ≡ self.admission.conn }
        ensures turns { result.1.read.end ≡ ReadEnd.Turns
            → result.0.socket.from.reads ≡ most_reads result.1.reads server.now.turns }
        ensures failed { (result.1.read.end ≡ ReadEnd.Device → IsSome result.0.socket.from.failure)
            × (result.1.write.end ≡ WriteEnd.Device → IsSome result.0.socket.to.failure) }
        // What was handled is the beginning of what the socket received.
        ensures handled { HandlesStream result.0.socket.from.received seats.calls result.1.read.seat
            result.1.read.sent.items result.1.read.end }
        // The socket was sent the frames of the mails that were taken, and nothing else: all, unless a write
        // failed or memory was short. Each answer among them was issued to it.
        ensures sent { (all : List TakenMail) × AreTaken seats.mails result.1.write.seat
            result.1.write.receipts.items all
            × IsWritten [] all result.1.write.end result.0.socket.to.writer.sent
            × AreIssued seats.mails.conn all result.1.write.receipts.history }
    {
        let Connection { admission, socket } = self;
        let ServedSocket { from, to, socket } = socket.begin();
        let ends: &ClientSocket = &socket;
        let (from, to, outcome) = serve_streams(
            rt, alloc, server, gate, seats, from, to, ends, reads,
        );
        let socket = ServedSocket { from, to, socket };
        (ServedConnection { admission, socket }, outcome)
    }

    /// Closes its socket.
    pub(crate) fn close(self) -> Admission
        ensures { result ≡ self.admission }
    {
        let Connection { admission, socket } = self;
        drop(socket);
        admission
    }
}

/// A connection that was served: its number, and its socket with what it received and was sent. It is not
/// `Drop` either.
pub(crate) struct ServedConnection {
    pub(crate) admission: Admission,
    pub(crate) socket: ServedSocket,
}

impl ServedConnection {
    /// Closes its socket.
    pub(crate) fn close(self) -> Admission
        ensures { result ≡ self.admission }
    {
        let ServedConnection { admission, socket } = self;
        drop(socket);
        admission
    }
}
