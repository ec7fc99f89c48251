//! What the threads of a server share (`ARCHITECTURE.md`, "Threads"): the hall, one front under a lock, with
//! a seat for each side of a connection (`docs/model.md`, "The hall"), the register of connections, and what
//! those did that have ended.

ghost use Rattle.std.specs.Prelude.{◌≡◌, ◌∷◌, [], IfOk, IfErr, nat_lt};
ghost use Rattle.fe_front.specs.Front.{IsFirst};
ghost use Rattle.fe_history.specs.Acts.{AreIssued};
ghost use Rattle.fe_history.specs.declared.act.Act.TheVariants as act;
ghost use Rattle.fe_shared.specs.declared.last_answer.LastAnswer.TheVariants as LastAnswer;
ghost use Rattle.fe_server.specs.Transcripts.{IsTranscript};
ghost use Rattle.fe_server.specs.Arrivals.{HasEnded, IsBoundBy};
ghost use Rattle.fe_server.specs.Acknowledged.{HasCommittedAndNoted};
ghost use Rattle.fe_server.specs.within.HasServed.{AreBlank};

use crate::accepting::AllServed;
use crate::arrival::{Arrival, Unkept, Unserved};
use crate::connection::{Accepted, ServedConnection};
use crate::listener::Listener;
use crate::register::{
    Admission, Bounds, Expected, Full, NoArrival, NoLate, NoMore, Register, Running, ServerEnded,
    Waiting,
};
use crate::sides::{ConnectionOutcome, FinishedConnections};
use fe_disk::Disk;
use fe_front::Front;
use fe_hall::{
    CallSeat, ConnectRight, Ended, Hall, MailSeat, NewHistory, StoreSeat, Tally, commit_side,
};
use fe_keeper::Keeper;
use fe_memory::OutOfMemory;
use fe_options::Settings;
use fe_state::State;
use std::alloc::Global;
use std::io;
use std::snapshot::Snapshot;
use std::sync::ledger::Blank;
use std::sync::{Condvar, CondvarTimeouts, Mutex, Wait};
use std::thread::SpawnError;
use std::time::{Clock, Duration};

/// How many milliseconds the write sides have to write the mails that are left, once nothing is stored any
/// more.
const LAST_WAIT: u64 = 400;

/// What the threads of a server share. `C` and `M` name the hall's ledgers (`Tally`) of calls and of mails.
pub(crate) struct RunningServer<C: Tally, M: Tally> {
    pub(crate) hall: Hall<C, M>,
    register: Mutex<Register<C, M>>,
    /// What the connections did that have ended.
    finished: Mutex<FinishedConnections<C, M>>,
    /// The condition variable that is rung when a place for a connection may be free, when a client who
    /// waited for one waits no more, and when the server ends.
    freed: Condvar,
    /// How many connections may be there, and come.
    bounds: Bounds,
    /// How many reads are made from each connection at most.
    pub(crate) turns: u64,
    /// Whether what was sent and the receipts are kept, to be compared when the hall is closed. They are if
    /// `accepts` bounds them.
    keeps: bool,
}

/// Why a server can't begin.
#[derive(Drop)]
pub(crate) enum Unbegun {
    /// The listener can't get a second handle.
    Listener(io::Error),
    /// Memory was short.
    NoMemory(OutOfMemory),
}

/// A server, and the state that its hall's front began with. The threads share only the server.
pub(crate) struct Opened<C: Tally, M: Tally> {
    pub(crate) server: RunningServer<C, M>,
    begun: Snapshot<State>,
}

impl<C: Tally, M: Tally> Opened<C, M> {
    /// A server with no connection, whose front begins with a copy of a state; the seat of its committing
    /// side; and the right to make connections. Fails if memory is short, or if the listener can't get a
    /// second handle.
    pub(crate) fn new(
        alloc: Global,
        state: &State,
        calls: Blank,
        mails: Blank,
        history: NewHistory,
        listener: &Listener,
        settings: &Settings,
    ) -> Result<(Opened<C, M>, StoreSeat<M>, ConnectRight), Unbegun>
        requires { AreBlank C.name C.parts C.all calls.name calls.parts M.name M.parts M.all mails.name
            mails.parts
            M.book history.book history.acts state.now }
        ensures begun { IfOk result (λ opened. opened.0.begun.value ≡ state.now) }
        ensures most { IfOk result (λ opened. opened.0.server.bounds.most ≡ settings.now.connections) }
        ensures accepts { IfOk result (λ opened. opened.0.server.bounds.accepts ≡ settings.now.accepts) }
        ensures turns { IfOk result (λ opened. opened.0.server.turns ≡ settings.now.turns) }
        ensures keeps { IfOk result (λ opened. opened.0.server.keeps ≡ nat_lt 0 settings.now.accepts) }
        ensures seat { IfOk result (λ opened. opened.1 ≡ history.acts) }
    {
        let listening_socket = match listener.shutdown_socket() {
            Ok(socket) => socket,
            Err(error) => {
                drop(history);
                return Err(Unbegun::Listener(error));
            }
        };
        let front = match front_over(alloc, state) {
            Ok(front) => front,
            Err(error) => {
                drop(history);
                drop(listening_socket);
                return Err(Unbegun::NoMemory(error));
            }
        };
        let begun = Snapshot::of(front.state());
        match Hall::new(alloc, front, calls, mails, history) {
            Ok((hall, seat, right)) => {
                let receipts = hall.no_receipts(alloc);
                let server = RunningServer {
                    hall,
                    register: Mutex::new(Register::new(alloc, listening_socket)),
                    finished: Mutex::new(FinishedConnections::new(alloc, &right, receipts)),
                    freed: Condvar::new(),
                    bounds: Bounds::of(settings),
                    turns: settings.turns,
                    keeps: settings.accepts > 0,
                };
                Ok((Opened { server, begun }, seat, right))
            }
            Err((error, front)) => {
                drop(front);
                Err(Unbegun::NoMemory(error))
            }
        }
    }

    /// The hall of a server that has ended, what its connections did, and whether receipts were to be kept.
    pub(crate) fn into_parts(
        self,
        over: ServerEnded,
    ) -> (Hall<C, M>, FinishedConnections<C, M>, bool)
        ensures keeps { result.2 ≡ self.server.keeps }
    {
        drop(over);
        let Opened { server, begun } = self;
        drop(begun);
        let RunningServer {
            hall,
            register,
            finished,
            freed,
            bounds: _,
            turns: _,
            keeps,
        } = server;
        drop(freed);
        register.into_inner().close();
        (hall, finished.into_inner(), keeps)
    }
}

impl<C: Tally, M: Tally> RunningServer<C, M> {
    /// Admits one more connection if there is room for it, beside the clients who wait.
    pub(crate) fn enter<R: Wait>(&self, rt: &R) -> Result<Admission, Full>
        // The admission, or the refusal, has the bounds of the settings. Only the register makes either.
        ensures bounds { IsBoundBy self.now.bounds result }
    {
        let bounds = self.bounds;
        self.register.lock(rt).enter(None, bounds)
    }

    /// Keeps a client until its thread takes it, and for it a place that is about to be free. Returns the
    /// client if each such place was already waited for, as many clients wait as there are places, the server
    /// has ended, or there is no memory.
    pub(crate) fn put_late<R: Wait>(
        &self,
        rt: &R,
        accepted: Accepted,
        full: Full,
    ) -> Result<Waiting, (Accepted, Full)> {
        self.register.lock(rt).put_late(accepted, full)
    }

    /// Takes a client that waits for a place and whose thread has not begun.
    pub(crate) fn take_late<R: Wait>(&self, rt: &R) -> Result<(Accepted, Expected), NoLate> {
        self.register.lock(rt).take_late()
    }

    /// Waits for a place that is about to be free, at most `millis` milliseconds, and then admits the client
    /// for whom it is kept, if there is room.
    pub(crate) fn enter_late<R: Clock + Wait>(
        &self,
        rt: &R,
        expected: Expected,
        millis: u64,
    ) -> Result<Admission, Full>
        ensures bounds { IsBoundBy self.now.bounds result }
    {
        let bounds = self.bounds;
        let register = self.register.lock(rt);
        let (mut register, _) = self.freed.wait_timeout_while(
            rt,
            register,
            Duration::from_millis(millis),
            |register| register.is_full(bounds),
        );
        let entered = register.enter(Some(expected), bounds);
        // The accepting thread may wait to learn what became of this client.
        self.freed.notify_all();
        entered
    }

    /// Keeps a connection until its thread takes it. Gives it back if there is no memory for it, or its
    /// socket can't be shared once more.
    pub(crate) fn put<R: Wait>(
        &self,
        rt: &R,
        arrival: Arrival<C, M>,
    ) -> Result<Waiting, Unkept<C, M>> {
        self.register.lock(rt).put(arrival)
    }

    /// Takes a connection whose threads have not begun.
    pub(crate) fn take<R: Wait>(&self, rt: &R) -> Result<Arrival<C, M>, NoArrival> {
        self.register.lock(rt).take()
    }

    /// Adds what the sides of a connection did that has ended, and removes it.
    pub(crate) fn leave<R: Wait>(
        &self,
        rt: &R,
        connection: ServedConnection,
        outcome: ConnectionOutcome<C, M>,
    )
        requires own { outcome.write.seat.conn ≡ connection.admission.conn }
        // What the socket received and was sent is what its sides handled and took.
        requires transcript { IsTranscript connection.socket.from.received connection.socket.to.writer.sent
            connection.admission.conn outcome.read.seat outcome.read.sent.items outcome.read.end
            outcome.write.seat outcome.write.receipts.items outcome.write.end }
        // Each answer that its write side took was issued to it.
        requires issued { AreIssued connection.admission.conn outcome.write.seat.taken
            outcome.write.receipts.history }
    {
        self.finished.lock(rt).add(&connection, outcome, self.keeps);
        let admission = connection.close();
        self.register.lock(rt).leave(admission);
        self.freed.notify_all();
    }

    /// Removes a connection that is not served, since the hall makes no seats for it.
    pub(crate) fn refuse<R: Wait>(&self, rt: &R, unserved: Unserved) {
        let mut register = self.register.lock(rt);
        let admission = register.refuse(unserved);
        register.leave(admission);
        drop(register);
        self.freed.notify_all();
    }

    /// Runs the committing side. At its end the server ends too.
    pub(crate) fn commit<D: Disk, R: Clock + Wait>(
        &self,
        rt: &R,
        keeper: Keeper<D>,
        seat: StoreSeat<M>,
    ) -> (Keeper<D>, ServerEnded, StoreSeat<M>)
        requires { seat ≡ act.Began keeper.state ∷ [] }
        ensures { HasCommittedAndNoted D.Disk keeper result.0 result.1.end result.2 }
    {
        let mut keeper = keeper;
        let mut seat = seat;
        let ended = commit_side(rt, &self.hall, &mut keeper, &mut seat);
        let over = self.end(rt, ended);
        (keeper, over, seat)
    }

    /// Ends the server after its committing side: no connection comes any more, and those that are there end.
    /// A write side ends its stream once it has written the mails of its box, and a read side ends it as soon
    /// as it has another message. A stream that neither has ended in time is ended here.
    fn end<R: Clock + Wait>(&self, rt: &R, ended: Ended) -> ServerEnded
        ensures { result.end ≡ ended }
    {
        let mut register = self.register.lock(rt);
        let ending = register.end(ended);
        // Clients who wait are sent away.
        self.freed.notify_all();
        let waited = self.freed.wait_timeout_while(
            rt,
            register,
            Duration::from_millis(LAST_WAIT),
            |register| !register.is_empty(),
        );
        waited.0.shut_all(ending)
    }

    /// Drops the handle of the listener, since no connection is accepted any more.
    pub(crate) fn stop_accepting<R: Wait>(&self, rt: &R) {
        self.register.lock(rt).stop_accepting();
    }

    /// Whether connections may come: the server has not ended and, unless `accepts` is 0, fewer than that
    /// came. If the clients who wait for a place may be the last that come, it first waits to learn whether
    /// they got in.
    pub(crate) fn running<R: Wait>(&self, rt: &R, accepts: u64) -> Result<Running, NoMore>
        ensures why { IfErr result (HasEnded accepts) }
    {
        let register = self.register.lock(rt);
        let register = self
            .freed
            .wait_while(rt, register, |register| register.may_reach(accepts));
        register.running(accepts)
    }

    /// Stops the hall, once all clients were served.
    pub(crate) fn stop<R: Wait>(&self, rt: &R, served: AllServed) {
        served.end(self.hall.stop(rt));
    }

    /// Stops the hall because the committing thread could not be started. The closing reports that as a lack
    /// of memory.
    pub(crate) fn fall_short<R: Wait, F>(&self, rt: &R, _refused: &SpawnError<F>) {
        self.finished.lock(rt).short = true;
        self.hall.stop(rt);
    }

    /// Stops the hall because a read side ended as a book of the hall, a count of calls or mails, is full.
    pub(crate) fn spend_calls<R: Wait>(&self, rt: &R, _seat: &CallSeat<C>)
        requires { _seat.now.last_answer ≡ LastAnswer.Spent }
    {
        self.spend(rt);
    }

    /// Stops the hall because a write side ended as a book of the hall is full.
    pub(crate) fn spend_mails<R: Wait>(&self, rt: &R, _seat: &MailSeat<M>)
        requires { _seat.now.last_answer ≡ LastAnswer.Spent }
    {
        self.spend(rt);
    }

    fn spend<R: Wait>(&self, rt: &R) {
        self.finished.lock(rt).spent = true;
        self.hall.stop(rt);
    }
}

/// A front over a copy of a state.
fn front_over(alloc: Global, state: &State) -> Result<Front, OutOfMemory>
    ensures { IfOk result (IsFirst state.now) }
{
    Front::new(alloc, state.copy()?)
}
