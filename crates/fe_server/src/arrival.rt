//! A connection with its seats, the rights of its two sides in the hall, the front that all threads share
//! (`docs/model.md`, "The hall").

ghost use Rattle.std.specs.Prelude.{◌≡◌, IfOk};

use crate::connection::{Accepted, Connection};
use crate::reads::{ReadLimit, Unstarted};
use crate::register::{Admission, Full, NoArrival, NoLate};
use crate::running_server::RunningServer;
use crate::sides::ConnectionSeats;
use crate::socket_handle::Unshared;
use fe_hall::{ConnectRight, Gate, Hall, NewSeats, Tally, Unconnected};
use fe_memory::OutOfMemory;
use std::alloc::Global;
use std::sync::Wait;
use std::thread::Threads;
use std::time::Clock;

/// A connection that was admitted, and its two sides' seats, before its threads begin. It is not `Drop`, as
/// its connection is not.
pub(crate) struct Arrival<C: Tally, M: Tally> {
    pub(crate) connection: Connection,
    pub(crate) seats: NewSeats<C, M>,
    ghost own: { seats ≡ connection.admission.conn },
}

/// Shows that a client that waited for its thread was served or sent away, or that none waited. Only
/// `Arrival::serve` and the functions below make it.
#[derive(Drop)]
pub(crate) struct ArrivalEnded(());

impl ArrivalEnded {
    /// No connection waited for its thread.
    pub(crate) fn of(none: NoArrival) -> ArrivalEnded {
        drop(none);
        ArrivalEnded(())
    }

    /// No client waited for a place.
    pub(crate) fn of_late(none: NoLate) -> ArrivalEnded {
        drop(none);
        ArrivalEnded(())
    }

    /// The client was sent away, since there was no place for it.
    pub(crate) fn away(accepted: Accepted, full: Full) -> ArrivalEnded {
        accepted.close(full);
        ArrivalEnded(())
    }

    /// The connection was closed, since the hall made no seats for it.
    pub(crate) fn unserved<C: Tally, M: Tally, R: Wait>(
        rt: &R,
        server: &RunningServer<C, M>,
        unserved: Unserved,
    ) -> ArrivalEnded {
        server.refuse(rt, unserved);
        ArrivalEnded(())
    }
}

/// Why a connection could not be kept until a thread takes it.
#[derive(Drop)]
pub(crate) enum Bar {
    Memory(OutOfMemory),
    Handle(Unshared),
}

/// A connection that could not be kept until a thread takes it.
pub(crate) struct Unkept<C: Tally, M: Tally> {
    arrival: Arrival<C, M>,
    unstarted: Unstarted,
}

impl<C: Tally, M: Tally> Unkept<C, M> {
    pub(crate) fn of(arrival: Arrival<C, M>, bar: Bar) -> Unkept<C, M>
        ensures { result.arrival ≡ arrival }
    {
        Unkept {
            arrival,
            unstarted: Unstarted::unkept(bar),
        }
    }
}

impl<C: Tally + Send + Sync, M: Tally + Send + Sync> Unkept<C, M> {
    /// Serves its client as `Arrival::serve` does, and reads nothing from it.
    pub(crate) fn serve<G: Gate + Sync, R: Clock + Threads + Wait + Sync>(
        self,
        rt: &R,
        alloc: Global,
        server: &RunningServer<C, M>,
        gate: &G,
    ) -> ArrivalEnded {
        let Unkept { arrival, unstarted } = self;
        arrival.serve(rt, alloc, server, gate, ReadLimit::None(unstarted))
    }
}

/// A connection for which a hall made no seats, and why. Only `Arrival::of` makes it.
pub(crate) struct Unserved {
    connection: Connection,
    why: Unconnected,
}

impl Unserved {
    pub(crate) fn close(self) -> Admission
        ensures { result ≡ self.connection.admission }
    {
        let Unserved { connection, why: _ } = self;
        connection.close()
    }
}

impl<C: Tally, M: Tally> Arrival<C, M> {
    /// This connection, with the seats of its number in a hall.
    pub(crate) fn of<R: Wait>(
        rt: &R,
        hall: &Hall<C, M>,
        right: &ConnectRight,
        connection: Connection,
    ) -> Result<Arrival<C, M>, Unserved>
        ensures connection { IfOk result (λ arrival. arrival.connection ≡ connection) }
    {
        match hall.connect(rt, right, connection.admission.conn) {
            Ok(seats) => Ok(Arrival { connection, seats }),
            Err(why) => Err(Unserved { connection, why }),
        }
    }
}

impl<C: Tally + Send + Sync, M: Tally + Send + Sync> Arrival<C, M> {
    /// Serves its client until both sides have ended.
    pub(crate) fn serve<G: Gate + Sync, R: Clock + Threads + Wait + Sync>(
        self,
        rt: &R,
        alloc: Global,
        server: &RunningServer<C, M>,
        gate: &G,
        reads: ReadLimit,
    ) -> ArrivalEnded {
        let Arrival { connection, seats } = self;
        let (calls, mails) = seats.begin();
        let seats = ConnectionSeats { calls, mails };
        let (connection, outcome) = connection.serve(rt, alloc, server, gate, seats, reads);
        server.leave(rt, connection, outcome);
        ArrivalEnded(())
    }
}
