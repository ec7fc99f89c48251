//! The register: which connections a server has, and which clients wait for a place among them
//! (`ARCHITECTURE.md`, "Threads"). A connection's seats are the rights of its two sides in the hall, the
//! front that all threads share (`docs/model.md`, "The hall").

ghost use Rattle.std.specs.Prelude.{◌≡◌, ◌↔◌, ◌⊎◌, ◌+◌, ◌-◌, ◌^◌, ◌<◌, ◌≤◌, ◌∷◌, ◌++◌, [], true, false, IfOk};
ghost use Rattle.std.specs.Prelude.{IfErr, OnErr, OnOk, IsTrue};
ghost use Rattle.fe_server.specs.FinishedConnections.{IsAdded, without};
ghost use Rattle.fe_server.specs.Arrivals.{HasEnded, IsBoundBy, awaited_after, kept_from};
ghost use Rattle.fe_server.specs.Acknowledged.{fault_of_end};

use crate::arrival::{Arrival, ArrivalEnded, Bar, Unkept, Unserved};
use crate::connection::Accepted;
use crate::socket_handle::SocketHandle;
use crate::stop_fault::StopFault;
use fe_hall::{CommitEnd, Ended, Tally};
use fe_memory::reserve_one;
use fe_options::Settings;
use std::alloc::Global;
use std::net::Shutdown;
use std::os::unix::net::UnixStream;
use std::thread::JoinHandle;

/// How many connections may be there at once (the setting `connections`), and how many may come in all
/// (`accepts`; 0 sets no bound). They are made of settings alone, so nobody is refused for other bounds.
#[derive(Clone, Copy)]
pub(crate) struct Bounds {
    most: u64,
    accepts: u64,
}

impl Bounds {
    /// The bounds that these settings set.
    pub(crate) fn of(settings: &Settings) -> Bounds
        ensures most { result.most ≡ settings.now.connections }
        ensures accepts { result.accepts ≡ settings.now.accepts }
    {
        Bounds {
            most: settings.connections,
            accepts: settings.accepts,
        }
    }
}

/// The right to one connection, within these bounds. Only `Register::enter` makes it. It is not `Drop`: a
/// connection cannot end without giving it back to `Register::leave`.
pub(crate) struct Admission {
    /// The number of the connection, which no other one has.
    pub(crate) conn: u64,
    bounds: Bounds,
}

/// Shows that one more connection could not come: no place was free beside those kept for clients who wait,
/// `accepts` came in all, or the server had ended. Only a register makes it.
#[derive(Drop)]
pub(crate) struct Full {
    bounds: Bounds,
}

/// A place that is about to be free, kept for a client who waits for it. Only `Register::put_late` makes it.
/// It is not `Drop`: the client who has it enters, or finds that there is no room.
pub(crate) struct Expected(());

/// Shows that no connection comes any more: the server has ended, or as many came as may come. Only
/// `Register::running` makes it.
#[derive(Drop)]
pub(crate) struct NoMore {
    over: bool,
    came: u64,
    accepts: u64,
}

/// Shows that a client was put into the register, and a thread has to take it. It is not `Drop`: either such
/// a thread was started, or this thread took a client in its place.
pub(crate) struct Waiting(());

impl Waiting {
    /// Notes that a thread was started that takes a client and serves it.
    pub(crate) fn begins(self, thread: JoinHandle<ArrivalEnded>) {
        let Waiting(()) = self;
        drop(thread);
    }

    /// Notes that a client was taken by this thread, and served or sent away.
    pub(crate) fn ends(self, ended: ArrivalEnded) -> ArrivalEnded {
        let Waiting(()) = self;
        ended
    }
}

/// Shows that no connection waited for its thread. Only `Register::take` makes it.
#[derive(Drop)]
pub(crate) struct NoArrival(());

/// Shows that no client waited for a place without a thread. Only `Register::take_late` makes it.
#[derive(Drop)]
pub(crate) struct NoLate(());

/// Shows that a server had not ended. Only `Register::running` makes it, and no connection is accepted
/// without it.
#[derive(Drop)]
pub(crate) struct Running(());

/// Shows that the committing side of a server, the thread that stores, has ended, and how. Only
/// `Register::end` makes it. It is not `Drop`, since the streams of the connections that are left have to be
/// ended.
pub(crate) struct Ending {
    end: CommitEnd,
}

/// Shows that a server has ended, and how its committing side did. Only `Register::shut_all` makes it, and a
/// server that has begun gives neither its books nor its account without it.
#[derive(Drop)]
pub(crate) struct ServerEnded {
    end: CommitEnd,
}

impl ServerEnded {
    /// The fault of the committing side's end, if it ended with one.
    pub(crate) fn fault(&self) -> Option<StopFault>
        ensures { result ≡ fault_of_end self.now.end }
    {
        match self.end {
            CommitEnd::Stopped => None,
            CommitEnd::Store(fault) => Some(StopFault::from(fault)),
            CommitEnd::Strange | CommitEnd::Spent => Some(StopFault::Strange),
        }
    }
}

/// The register, which a lock of the server guards.
pub(crate) struct Register<C: Tally, M: Tally> {
    /// The connections whose threads have not begun.
    arrivals: Vec<Arrival<C, M>>,
    /// How many connections were admitted, which is the number of the next.
    admitted: u64,
    /// How many of them got seats in the hall, or are about to get them.
    came: u64,
    /// How many connections the server has.
    present: u64,
    /// How many clients wait for a place that is about to be free.
    awaited: u64,
    /// The clients who wait for a place and whose threads have not begun.
    waiting_clients: Vec<(Accepted, Expected, Full)>,
    /// The handles by which the streams of connections are ended.
    handles: Vec<SocketHandle>,
    /// Another handle of the listener, as a socket that can be shut down, while connections are accepted.
    listening_socket: Option<UnixStream>,
    /// Whether the committing side has ended, so that nothing is stored any more.
    over: bool,
    ghost few: { came ≤ admitted },
}

impl<C: Tally, M: Tally> Register<C, M> {
    /// A register to which no connection came.
    pub(crate) fn new(alloc: Global, listening_socket: UnixStream) -> Register<C, M> {
        Register {
            arrivals: Vec::new(alloc),
            admitted: 0,
            came: 0,
            present: 0,
            awaited: 0,
            waiting_clients: Vec::new(alloc),
            handles: Vec::new(alloc),
            listening_socket: Some(listening_socket),
            over: false,
        }
    }

    /// Keeps a connection until its thread takes it, and its handle until it leaves. Gives it back if there
    /// is no memory for it, or its socket can't be shared once more.
    pub(crate) fn put(&mut self, arrival: Arrival<C, M>) -> Result<Waiting, Unkept<C, M>>
        ensures put { OnOk result (self.new.arrivals.items ≡ self.old.arrivals.items ++ arrival ∷ []) }
        ensures handle { OnOk result (IsAdded (λ handle. handle.conn ≡ arrival.connection.admission.conn)
            self.old.handles.items self.new.handles.items) }
        ensures back { IfErr result (λ back. back.arrival ≡ arrival) }
        ensures counts { (self.new.admitted ≡ self.old.admitted) × (self.new.came ≡ self.old.came)
            × (self.new.present ≡ self.old.present) }
    {
        if let Err(error) = reserve_one(&mut self.arrivals) {
            return Err(Unkept::of(arrival, Bar::Memory(error)));
        }
        if let Err(error) = reserve_one(&mut self.handles) {
            return Err(Unkept::of(arrival, Bar::Memory(error)));
        }
        match arrival.connection.handle() {
            Ok(handle) => {
                self.handles.push_reserved(handle);
                self.arrivals.push_reserved(arrival);
                Ok(Waiting(()))
            }
            Err(unshared) => Err(Unkept::of(arrival, Bar::Handle(unshared))),
        }
    }

    /// Takes a connection whose threads have not begun, the last that was put.
    pub(crate) fn take(&mut self) -> Result<Arrival<C, M>, NoArrival>
        ensures taken { IfOk result (λ arrival. self.old.arrivals.items
            ≡ self.new.arrivals.items ++ arrival ∷ []) }
        ensures none { OnErr result (self.old.arrivals.items ≡ []) }
        ensures counts { (self.new.admitted ≡ self.old.admitted) × (self.new.came ≡ self.old.came)
            × (self.new.present ≡ self.old.present) }
    {
        match self.arrivals.pop() {
            Some(arrival) => Ok(arrival),
            None => Err(NoArrival(())),
        }
    }

    /// Whether a client who waits has to wait on: the server has as many connections as it may have, and has
    /// not ended.
    pub(crate) fn is_full(&self, bounds: Bounds) -> bool
        ensures { IsTrue result ↔ ((self.now.over ≡ false) × (bounds.most ≤ self.now.present)) }
    {
        !self.over && self.present >= bounds.most
    }

    /// Whether the clients who wait may become the last of the `accepts` that come. If `accepts` is 0, there
    /// is no last one.
    pub(crate) fn may_reach(&self, accepts: u64) -> bool
        ensures { IsTrue result ↔ ((self.now.over ≡ false) × (self.now.came < accepts)
            × (accepts ≤ self.now.came + self.now.awaited)) }
    {
        !self.over && self.came < accepts && accepts - self.came <= self.awaited
    }

    /// Keeps a client for its thread, and for it a place that became free since it was refused, or that of a
    /// connection that is about to end. Each place is kept once, so nobody waits again for a connection that
    /// was awaited in vain. Returns the client if there is no such place, if as many clients wait as there
    /// are places, if the server has ended, or if there is no memory.
    pub(crate) fn put_late(
        &mut self,
        accepted: Accepted,
        full: Full,
    ) -> Result<Waiting, (Accepted, Full)>
        ensures put { OnOk result
            (IsAdded (λ late. late.0 ≡ accepted) self.old.waiting_clients.items
            self.new.waiting_clients.items) }
        ensures awaited { OnOk result (self.new.awaited ≡ self.old.awaited + 1) }
        ensures back { IfErr result (λ back. (back.0 ≡ accepted) × (back.1 ≡ full)) }
        // A client who waits is not counted yet.
        ensures counts { (self.new.admitted ≡ self.old.admitted) × (self.new.came ≡ self.old.came)
            × (self.new.present ≡ self.old.present) }
    {
        if self.over
            || self.awaited >= full.bounds.most
            || self.waiting_clients.reserve(1).is_err()
        {
            return Err((accepted, full));
        }
        let is_free = self.has_place(full.bounds);
        if !keep_place(&mut self.handles, is_free) {
            return Err((accepted, full));
        }
        self.awaited += 1;
        self.waiting_clients
            .push_reserved((accepted, Expected(()), full));
        Ok(Waiting(()))
    }

    /// Whether another client may come, and a place is free beside those kept for clients who wait.
    fn has_place(&self, bounds: Bounds) -> bool
        ensures { IsTrue result → self.now.present + self.now.awaited < bounds.most }
    {
        let Bounds { most, accepts } = bounds;
        (accepts == 0 || self.came < accepts)
            && self.present < most
            && self.awaited < most - self.present
    }

    /// Takes a client that waits for a place and whose thread has not begun, the last that was put.
    pub(crate) fn take_late(&mut self) -> Result<(Accepted, Expected), NoLate>
        ensures taken { IfOk result
            (λ late. IsAdded (λ kept. kept.0 ≡ late.0) self.new.waiting_clients.items
            self.old.waiting_clients.items) }
        ensures none { OnErr result (self.old.waiting_clients.items ≡ []) }
        ensures counts { (self.new.admitted ≡ self.old.admitted) × (self.new.came ≡ self.old.came)
            × (self.new.present ≡ self.old.present) }
    {
        match self.waiting_clients.pop() {
            Some((accepted, expected, full)) => {
                drop(full);
                Ok((accepted, expected))
            }
            None => Err(NoLate(())),
        }
    }

    /// Admits one more connection within the bounds, and gives it the next number. A place that another
    /// client waits for is not given to one who does not wait.
    pub(crate) fn enter(
        &mut self,
        expected: Option<Expected>,
        bounds: Bounds,
    ) -> Result<Admission, Full>
        ensures bounds { IsBoundBy bounds result }
        ensures number { IfOk result (λ admission. (admission.conn ≡ self.old.admitted)
            × (self.new.admitted ≡ admission.conn + 1)) }
        ensures few { OnOk result ((self.new.present ≡ self.old.present + 1)
            × (self.new.present ≤ bounds.most)) }
        ensures came { OnOk result ((self.new.came ≡ self.old.came + 1)
            × (0 < bounds.accepts → self.new.came ≤ bounds.accepts)) }
        ensures running { OnOk result (self.old.over ≡ false) }
        ensures refused { OnErr result ((self.new.admitted ≡ self.old.admitted)
            × (self.new.came ≡ self.old.came)
            × (self.new.present ≡ self.old.present)) }
        ensures awaited { self.new.awaited ≡ awaited_after expected self.old.awaited }
        // It is refused only if the server has ended, no place is free beside those kept for others, all
        // came, or no number is left.
        ensures why { OnErr result ((self.old.over ≡ true)
            ⊎ (bounds.most ≤ self.old.present + kept_from expected self.old.awaited)
            ⊎ ((0 < bounds.accepts) × (bounds.accepts ≤ self.old.came)) ⊎ (2 ^ 64 ≤ self.old.admitted + 1)) }
    {
        let kept = places_kept(&mut self.awaited, expected);
        let Bounds { most, accepts } = bounds;
        let all_came = accepts > 0 && self.came >= accepts;
        let is_full = self.present >= most || most - self.present <= kept;
        if self.over || is_full || all_came || self.admitted == u64::MAX {
            return Err(Full { bounds });
        }
        let conn = self.admitted;
        self.admitted += 1;
        self.came += 1;
        self.present += 1;
        Ok(Admission { conn, bounds })
    }

    /// Removes a connection that has ended. There is room for another connection then.
    pub(crate) fn leave(&mut self, admission: Admission)
        // Its handle goes, and so its socket is closed.
        ensures handles { self.new.handles.items ≡ without admission.conn self.old.handles.items }
        ensures present { self.new.present ≡ self.old.present - 1 }
        ensures came { self.new.came ≡ self.old.came }
        ensures admitted { self.new.admitted ≡ self.old.admitted }
    {
        let Admission { conn, bounds: _ } = admission;
        self.present = self.present.saturating_sub(1);
        self.handles.retain(|handle| handle.conn != conn);
    }

    /// Takes a connection off the count of those that came, since the hall made no seats for it, and closes
    /// it. It has still to leave.
    pub(crate) fn refuse(&mut self, unserved: Unserved) -> Admission
        ensures came { self.new.came ≡ self.old.came - 1 }
        ensures present { self.new.present ≡ self.old.present }
        ensures admitted { self.new.admitted ≡ self.old.admitted }
        ensures admission { result ≡ unserved.connection.admission }
    {
        self.came = self.came.saturating_sub(1);
        unserved.close()
    }

    /// Notes that the committing side has ended, and how: no connection comes any more.
    pub(crate) fn end(&mut self, ended: Ended) -> Ending
        ensures over { self.new.over ≡ true }
        ensures end { result.end ≡ ended }
        ensures counts { (self.new.admitted ≡ self.old.admitted) × (self.new.came ≡ self.old.came)
            × (self.new.present ≡ self.old.present) }
    {
        self.over = true;
        if let Some(listening_socket) = self.listening_socket.take() {
            let _ = listening_socket.shutdown(Shutdown::Both);
        }
        Ending { end: ended.end() }
    }

    /// Drops the handle of the listener, since no connection is accepted any more.
    pub(crate) fn stop_accepting(&mut self)
        ensures counts { (self.new.admitted ≡ self.old.admitted) × (self.new.came ≡ self.old.came)
            × (self.new.present ≡ self.old.present) }
    {
        drop(self.listening_socket.take());
    }

    pub(crate) fn is_empty(&self) -> bool {
        self.present == 0
    }

    /// Ends the streams of all connections that are left.
    pub(crate) fn shut_all(&self, ending: Ending) -> ServerEnded
        ensures { result.end ≡ ending.end }
    {
        for handle in &self.handles {
            handle.shut();
        }
        let Ending { end } = ending;
        ServerEnded { end }
    }

    /// Whether connections may come: the server has not ended and, unless `accepts` is 0, fewer than that
    /// came.
    pub(crate) fn running(&self, accepts: u64) -> Result<Running, NoMore>
        ensures running { OnOk result (self.now.over ≡ false) }
        ensures no_more { IfErr result (λ no_more. (no_more.accepts ≡ accepts)
            × (no_more.came ≡ self.now.came)
            × (no_more.over ≡ self.now.over)) }
        ensures why { IfErr result (HasEnded accepts) }
    {
        let over = self.over;
        let came = self.came;
        if over || accepts > 0 && came >= accepts {
            return Err(NoMore {
                over,
                came,
                accepts,
            });
        }
        Ok(Running(()))
    }

    /// Ends the register of a server that has ended. By then each client that was put was taken, so none is
    /// dismissed here.
    pub(crate) fn close(self) {
        let Register {
            arrivals,
            admitted: _,
            came: _,
            present: _,
            awaited: _,
            waiting_clients,
            handles,
            listening_socket,
            over: _,
        } = self;
        dismiss(arrivals);
        dismiss_late(waiting_clients);
        drop(handles);
        drop(listening_socket);
    }
}

/// Keeps the place of a connection that is about to end, unless a place is free. Whether there is a place.
fn keep_place(handles: &mut Vec<SocketHandle>, is_free: bool) -> bool {
    if is_free {
        return true;
    }
    let Some(at) = handles.iter().position(|handle| handle.is_ending()) else {
        return false;
    };
    handles[at].expect_end();
    true
}

/// How many of the awaited places are kept from a client that wants to enter. A client for whom a place was
/// kept waits no more.
fn places_kept(awaited: &mut u64, expected: Option<Expected>) -> u64
    ensures kept { result ≡ kept_from expected awaited.old }
    ensures awaited { awaited.new ≡ awaited_after expected awaited.old }
{
    match expected {
        Some(Expected(())) => {
            *awaited = awaited.saturating_sub(1);
            0
        }
        None => *awaited,
    }
}

/// Dismisses connections whose threads have not begun.
fn dismiss<C: Tally, M: Tally>(arrivals: Vec<Arrival<C, M>>) {
    let mut arrivals = arrivals;
    while let Some(arrival) = arrivals.pop() {
        let Arrival { connection, seats } = arrival;
        let Admission { conn: _, bounds: _ } = connection.close();
        drop(seats);
    }
    arrivals.destroy_empty();
}

/// Closes the sockets of clients whose threads have not begun.
fn dismiss_late(waiting_clients: Vec<(Accepted, Expected, Full)>) {
    let mut waiting_clients = waiting_clients;
    while let Some((accepted, expected, full)) = waiting_clients.pop() {
        let Expected(()) = expected;
        accepted.close(full);
    }
    waiting_clients.destroy_empty();
}
