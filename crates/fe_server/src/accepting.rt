//! The accepting thread of a server, which takes in clients and starts a thread for each connection
//! (`ARCHITECTURE.md`, "Threads"). The hall is the front that all threads share; it has a seat for each side
//! of a connection (`docs/model.md`, "The hall").

ghost use Rattle.fe_server.specs.Arrivals.{HasEnded};

use crate::arrival::{Arrival, ArrivalEnded};
use crate::connection::{Accepted, Connection, STACK};
use crate::listener::Listener;
use crate::reads::{ReadLimit, Unstarted};
use crate::register::{NoMore, Waiting};
use crate::running_server::RunningServer;
use core::thread::{Anything, Stack};
use fe_hall::{ConnectRight, Gate, HasStopped, Tally};
use fe_options::Settings;
use std::alloc::Global;
use std::io::ErrorKind;
use std::sync::Wait;
use std::thread::{Scope, Threads};
use std::time::{Clock, Duration};
use std::{io, thread};

/// How many milliseconds the acceptor waits after a connection could not be accepted.
const PAUSE: u64 = 10;

/// How many milliseconds a client waits at most for a place among the `connections` (`docs/settings.md`) that
/// is about to be free.
const ROOM_WAIT: u64 = 1000;

/// Shows that no connection comes any more, and that those that came have ended. Only `serve_clients` makes
/// it. Without it the hall is stopped only at a fault: of the committing side, or if its thread can't be
/// started, or if a book (a count of calls or mails) is full. It is not `Drop`, since the hall has to be
/// stopped.
pub(crate) struct AllServed {
    no_more: NoMore,
}

impl AllServed {
    /// Ends it, since the hall was stopped.
    pub(crate) fn end(self, _stopped: HasStopped) {
        let AllServed { no_more } = self;
        drop(no_more);
    }
}

/// Serves the connections that come, until as many came as the setting `accepts` says or nothing is stored
/// any more, and all have ended.
pub(crate) fn serve_clients<
    C: Tally + Send + Sync,
    M: Tally + Send + Sync,
    G: Gate + Sync,
    R: Clock + Threads + Wait + Sync,
>(
    rt: &R,
    alloc: Global,
    server: &RunningServer<C, M>,
    listener: Listener,
    right: ConnectRight,
    settings: &Settings,
    gate: &G,
) -> AllServed
    // Clients come until the server ends, or as many came as the settings say.
    ensures why { HasEnded settings.now.accepts result.no_more }
{
    let accepts = settings.accepts;
    let lent = &right;
    let no_more = thread::scope(
        thread::scope_env(),
        rt,
        move |scope| -> NoMore
            ensures { HasEnded accepts result }
        {
            let acceptor = Acceptor {
                rt,
                alloc,
                server,
                right: lent,
                gate,
            };
            let no_more = acceptor.accept_all(scope, &listener, accepts);
            server.stop_accepting(rt);
            drop(listener);
            no_more
        },
    );
    drop(right);
    AllServed { no_more }
}

/// Accepts connections, and begins to serve them.
#[derive(Clone, Copy)]
struct Acceptor<'s, C: Tally, M: Tally, G: Gate, R: Clock> {
    rt: &'s R,
    alloc: Global,
    server: &'s RunningServer<C, M>,
    right: &'s ConnectRight,
    gate: &'s G,
}

impl<
    's,
    C: Tally + Send + Sync,
    M: Tally + Send + Sync,
    G: Gate + Sync,
    R: Clock + Threads + Wait + Sync,
> Acceptor<'s, C, M, G, R> {
    /// Accepts connections until the server ends or, unless `accepts` is 0, that many came.
    fn accept_all<E>(&self, scope: &Scope<'s, E>, listener: &Listener, accepts: u64) -> NoMore
        ensures { HasEnded accepts result }
    {
        for _ in self.rt.forever() {
            match self.server.running(self.rt, accepts) {
                Err(no_more) => return no_more,
                Ok(running) => match listener.accept(self.alloc, running) {
                    Err(error) => pause(self.rt, error),
                    Ok(accepted) => self.welcome(scope, accepted),
                },
            }
        }
        unreachable!()
    }

    /// Begins to serve a client, if there is room for it and the hall makes its seats. A client for whom a
    /// place is about to be free waits for it in a thread of its own.
    fn welcome<E>(&self, scope: &Scope<'s, E>, accepted: Accepted) {
        let (rt, server) = (self.rt, self.server);
        match server.enter(rt) {
            Ok(admission) => {
                match Arrival::of(
                    rt,
                    &server.hall,
                    self.right,
                    Connection::of(accepted, admission),
                ) {
                    Ok(arrival) => self.start(scope, arrival),
                    Err(unserved) => server.refuse(rt, unserved),
                }
            }
            Err(full) => match server.put_late(rt, accepted, full) {
                Ok(waiting) => self.start_late(scope, waiting),
                Err((accepted, full)) => accepted.close(full),
            },
        }
    }

    /// Starts the thread of a client who waits for its place. If that can't be done, the client waits no
    /// more.
    fn start_late<E>(&self, scope: &Scope<'s, E>, waiting: Waiting) {
        let (rt, alloc, server, right, gate) = (
            self.rt,
            self.alloc,
            self.server,
            self.right,
            self.gate,
        );
        let started = Stack::new()
            .stack_size(STACK)
            .spawn_scoped_with(scope, Anything, move || -> ArrivalEnded {
                serve_late(rt, alloc, server, right, gate, ReadLimit::All, ROOM_WAIT)
            });
        match started {
            Ok(thread) => waiting.begins(thread.forget_promise()),
            Err(refused) => {
                let reads = ReadLimit::None(Unstarted::refused(&refused));
                drop(waiting.ends(serve_late(rt, alloc, server, right, gate, reads, 0)));
            }
        }
    }

    /// Starts the thread of a connection. If that can't be done, this thread takes the last connection that
    /// waits for its thread, mostly this one, reads nothing from it, and ends it.
    fn start<E>(&self, scope: &Scope<'s, E>, arrival: Arrival<C, M>) {
        let (rt, alloc, server, gate) = (self.rt, self.alloc, self.server, self.gate);
        match server.put(rt, arrival) {
            Ok(waiting) => {
                let started = Stack::new()
                    .stack_size(STACK)
                    .spawn_scoped_with(scope, Anything, move || -> ArrivalEnded {
                        serve_next(rt, alloc, server, gate, ReadLimit::All)
                    });
                match started {
                    Ok(thread) => waiting.begins(thread.forget_promise()),
                    Err(refused) => {
                        let reads = ReadLimit::None(Unstarted::refused(&refused));
                        drop(waiting.ends(serve_next(rt, alloc, server, gate, reads)));
                    }
                }
            }
            Err(arrival) => drop(arrival.serve(rt, alloc, server, gate)),
        }
    }
}

/// Takes a connection that waits for its thread, and serves it until both its sides have ended.
fn serve_next<
    C: Tally + Send + Sync,
    M: Tally + Send + Sync,
    G: Gate + Sync,
    R: Clock + Threads + Wait + Sync,
>(rt: &R, alloc: Global, server: &RunningServer<C, M>, gate: &G, reads: ReadLimit) -> ArrivalEnded {
    match server.take(rt) {
        Ok(arrival) => arrival.serve(rt, alloc, server, gate, reads),
        Err(none) => ArrivalEnded::of(none),
    }
}

/// Takes a client that waits for a place, and serves it once one is free, or sends it away if it gets none
/// within `millis` milliseconds.
fn serve_late<
    C: Tally + Send + Sync,
    M: Tally + Send + Sync,
    G: Gate + Sync,
    R: Clock + Threads + Wait + Sync,
>(
    rt: &R,
    alloc: Global,
    server: &RunningServer<C, M>,
    right: &ConnectRight,
    gate: &G,
    reads: ReadLimit,
    millis: u64,
) -> ArrivalEnded {
    let (accepted, expected) = match server.take_late(rt) {
        Ok(late) => late,
        Err(none) => return ArrivalEnded::of_late(none),
    };
    let admission = match server.enter_late(rt, expected, millis) {
        Ok(admission) => admission,
        Err(full) => return ArrivalEnded::away(accepted, full),
    };
    let arrival = match Arrival::of(rt, &server.hall, right, Connection::of(accepted, admission)) {
        Ok(arrival) => arrival,
        Err(unserved) => return ArrivalEnded::unserved(rt, server, unserved),
    };
    match server.put(rt, arrival) {
        Ok(waiting) => waiting.ends(serve_next(rt, alloc, server, gate, reads)),
        Err(arrival) => arrival.serve(rt, alloc, server, gate),
    }
}

/// Pauses after a connection could not be accepted, for example with too many open files or too little
/// memory, so that the next try does not follow at once. It does not after an interrupted call, or if the
/// client had gone already.
fn pause<R: Clock>(rt: &R, error: io::Error) {
    match error.kind() {
        ErrorKind::Interrupted | ErrorKind::ConnectionAborted => {}
        _ => thread::sleep(rt, Duration::from_millis(PAUSE)),
    }
}
