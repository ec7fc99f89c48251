//! The two sides of a connection, a reading and a writing thread, and what they leave (`ARCHITECTURE.md`,
//! "Threads"). Seats, receipts and lists of messages are the hall's (`docs/model.md`, "The hall").
//!
//! What a connection leaves is made here, and used up by `FinishedConnections::add`: its fields are private
//! to this file and that one.

ghost use Rattle.std.specs.Prelude.{◌≡◌, ◌≢◌, ◌+◌, List, [], true, false, IsSome};
ghost use Rattle.std.specs.Io.KnownBytes.{IsAtEnd};
ghost use Rattle.fe_history.specs.Acts.{AreIssued};
ghost use Rattle.fe_mail.specs.declared.mail.Mail.{Mail as TakenMail};
ghost use Rattle.fe_hall.specs.Reads.{HandlesStream};
ghost use Rattle.fe_hall.specs.Writes.{AreTaken, IsWritten};
ghost use Rattle.fe_server.specs.Sides.{HasHandled, HasWritten, ends_stream, most_reads, known_bytes};
ghost use Rattle.fe_server.specs.Transcripts.{AreRead};

mod finished_connections;
mod finished_sides;

use crate::connection::STACK;
use crate::reads::{ReadLimit, Unstarted};
use crate::running_server::RunningServer;
use crate::stream::{StreamRead, StreamWrite};
use core::thread::Stack;
use fe_hall::{
    CallSeat, Gate, MailSeat, ReadEnd, ReadHalf, Receipts, Tally, WriteEnd, WriteHalf, read_side,
    write_side,
};
use fe_wire::ClientMessage;
pub(crate) use finished_connections::FinishedConnections;
use std::alloc::Global;
use std::io::{Read, Write};
use std::snapshot::Snapshot;
use std::sync::Wait;
use std::thread;
use std::thread::{Promise, Scope, Threads};
use std::time::Clock;

/// A stream that can be ended, in both directions.
pub(crate) trait HangUp {
    fn hang_up(&self);
}

/// The right of a connection's side to end the stream. It is not `Drop`: the side does so, or leaves the
/// stream to the other side.
struct StreamEnd<'a, E: HangUp> {
    stream: &'a E,
}

/// Whether a side that ended has ended its stream. Only a `StreamEnd` makes it.
#[derive(Drop)]
pub(crate) struct Parted {
    is_shut: bool,
}

impl<'a, E: HangUp> StreamEnd<'a, E> {
    /// Ends the stream.
    fn hang_up(self) -> Parted
        ensures { result.is_shut ≡ true }
    {
        let StreamEnd { stream } = self;
        stream.hang_up();
        Parted { is_shut: true }
    }

    /// Leaves the stream to the other side.
    fn leave(self) -> Parted
        ensures { result.is_shut ≡ false }
    {
        let StreamEnd { stream: _ } = self;
        Parted { is_shut: false }
    }
}

/// The seats of the two sides of one connection.
#[derive(Drop)]
pub(crate) struct ConnectionSeats<C: Tally, M: Tally> {
    pub(crate) calls: CallSeat<C>,
    pub(crate) mails: MailSeat<M>,
    ghost one: { calls.conn ≡ mails.conn },
}

/// What the read side of a connection did. It has ended the stream, except at `Closed` and `Turns`, after
/// which the write side goes on.
pub(crate) struct ReadOutcome<C: Tally> {
    seat: CallSeat<C>,
    sent: Vec<ClientMessage>,
    end: ReadEnd,
    parted: Parted,
    ghost shut: { parted.is_shut ≡ ends_stream end },
}

/// What the write side of a connection did and saw. It has ended the stream.
#[derive(Drop)]
pub(crate) struct WriteOutcome<M: Tally> {
    seat: MailSeat<M>,
    receipts: Receipts<M>,
    end: WriteEnd,
    parted: Parted,
    ghost own: { receipts.conn ≡ seat.conn },
    ghost shut: { parted.is_shut ≡ true },
}

/// What the two sides of a connection did. Only serving a connection makes one, and only
/// `FinishedConnections::add` uses it up: it is not `Drop`, so no connection that was served is left out.
pub(crate) struct ConnectionOutcome<C: Tally, M: Tally> {
    read: ReadOutcome<C>,
    write: WriteOutcome<M>,
    reads: ReadLimit,
    ghost one: { read.seat.conn ≡ write.seat.conn },
}

/// The promise of the writing thread: what it returns follows from the half (the direction to the client) and
/// the seat with which it began.
#[derive(Drop)]
struct Wrote<W: WriteHalf + Drop, M: Tally> {
    before: Snapshot<W>,
    seat: Snapshot<MailSeat<M>>,
}

impl<W: WriteHalf + Drop, M: Tally> Promise<(W, WriteOutcome<M>)> for Wrote<W, M> {
    ghost use Rattle.fe_server.specs.Sides.{HasWritten};

    ghost kept_by = { λ p r. HasWritten W.is_known W.got W.failed p.before.value r.0 p.seat.value
        r.1.seat r.1.receipts r.1.end };
}

/// Serves a connection over the two directions of its stream, from a reader and to a writer, until both its
/// sides have ended. The beginning of what was received was handled; if the writer's bytes are known, as
/// those of a socket are, it got the frames of the mails that were taken: all, unless a write failed or
/// memory was short.
pub(crate) fn serve_streams<
    C: Tally + Send + Sync,
    M: Tally + Send + Sync,
    G: Gate + Sync,
    R: Clock + Threads + Wait + Sync,
    I: Read + Drop,
    O: Write + Drop + Send,
    E: HangUp + Sync,
>(
    rt: &R,
    alloc: Global,
    server: &RunningServer<C, M>,
    gate: &G,
    seats: ConnectionSeats<C, M>,
    from: StreamRead<I>,
    to: StreamWrite<O>,
    ends: &E,
    reads: ReadLimit,
) -> (StreamRead<I>, StreamWrite<O>, ConnectionOutcome<C, M>)
    ensures own { result.2.write.seat.conn ≡ seats.mails.conn }
    ensures handled { from.received ≡ [] → HandlesStream result.0.received
        seats.calls result.2.read.seat result.2.read.sent.items result.2.read.end }
    // Where the bytes that the reader had at first are known, those received are the ones that were read.
    ensures read { AreRead (I.remaining result.0.incoming.began.value) (I.remaining result.0.incoming.reader)
        result.0.received }
    ensures wrote { let write = result.2.write in
        (all : List TakenMail) × AreTaken seats.mails write.seat write.receipts.items all
        × (IsSome (O.contents to.writer)
        → IsWritten (known_bytes (O.contents to.writer)) all write.end
        (known_bytes (O.contents result.1.writer)))
        × AreIssued seats.mails.conn all write.receipts.history }
    ensures departed { result.2.write.end ≢ WriteEnd.Stopped → result.2.write.seat.departed ≡ true }
    // The read side ends as `Turns` only after as many reads as it may make, as `Closed` only at the end of
    // the stream, and as `Device` only after a read that failed; the write side only after a write that
    // failed.
    ensures turns { result.2.read.end ≡ ReadEnd.Turns
        → result.0.reads ≡ from.reads + most_reads result.2.reads server.now.turns }
    ensures ended { result.2.read.end ≡ ReadEnd.Closed → IsAtEnd (I.remaining result.0.incoming.reader) }
    ensures failed { (result.2.read.end ≡ ReadEnd.Device → IsSome result.0.failure)
        × (result.2.write.end ≡ WriteEnd.Device → IsSome result.1.failure) }
{
    serve_over(rt, alloc, server, gate, seats, from, to, ends, reads)
}

/// Serves a connection over the two directions of its stream, in two threads, until both its sides have
/// ended.
fn serve_over<
    C: Tally + Send + Sync,
    M: Tally + Send + Sync,
    G: Gate + Sync,
    R: Clock + Threads + Wait + Sync,
    H: ReadHalf + Drop,
    W: WriteHalf + Drop + Send,
    E: HangUp + Sync,
>(
    rt: &R,
    alloc: Global,
    server: &RunningServer<C, M>,
    gate: &G,
    seats: ConnectionSeats<C, M>,
    from: H,
    to: W,
    ends: &E,
    reads: ReadLimit,
) -> (H, W, ConnectionOutcome<C, M>)
    // If the half's bytes are known and none was read before, the beginning of what was read was handled.
    ensures handled { HasHandled H.is_known H.known H.reads H.ended H.failed
        (most_reads result.2.reads server.now.turns) from result.0 seats.calls result.2.read.seat
        result.2.read.sent.items result.2.read.end }
    // If the half's bytes are known, it got the frames of the mails that were taken: all, unless a write
    // failed or memory was short.
    ensures wrote { HasWritten W.is_known W.got W.failed to result.1 seats.mails
        result.2.write.seat result.2.write.receipts result.2.write.end }
{
    thread::scope(
        thread::scope_env(),
        rt,
        move |scope| -> (H, W, ConnectionOutcome<C, M>)
            ensures { HasHandled H.is_known H.known H.reads H.ended H.failed
                (most_reads result.2.reads server.entry.now.turns) from result.0 seats.calls
                result.2.read.seat
                result.2.read.sent.items result.2.read.end
                × HasWritten W.is_known W.got W.failed to result.1 seats.mails
                result.2.write.seat result.2.write.receipts result.2.write.end }
        { serve_in(rt, alloc, scope, server, gate, seats, from, to, ends, reads) },
    )
}

/// Serves a connection in a scope: its write side in a thread of its own, its read side in this one.
fn serve_in<
    's,
    Z,
    C: Tally + Send + Sync,
    M: Tally + Send + Sync,
    G: Gate + Sync,
    R: Clock + Threads + Wait + Sync,
    H: ReadHalf + Drop,
    W: WriteHalf + Drop + Send + 's,
    E: HangUp + Sync,
>(
    rt: &'s R,
    alloc: Global,
    scope: &Scope<'s, Z>,
    server: &'s RunningServer<C, M>,
    gate: &G,
    seats: ConnectionSeats<C, M>,
    from: H,
    to: W,
    ends: &'s E,
    reads: ReadLimit,
) -> (H, W, ConnectionOutcome<C, M>)
    ensures { HasHandled H.is_known H.known H.reads H.ended H.failed
        (most_reads result.2.reads server.now.turns)
        from result.0 seats.calls result.2.read.seat result.2.read.sent.items result.2.read.end
        × HasWritten W.is_known W.got W.failed to result.1 seats.mails
        result.2.write.seat result.2.write.receipts result.2.write.end }
{
    let ConnectionSeats { calls, mails } = seats;
    let promise = Wrote {
        before: Snapshot::of(&to),
        seat: Snapshot::of(&mails),
    };
    let own = StreamEnd { stream: ends };
    let writing = Stack::new().stack_size(STACK).spawn_scoped_with(
        scope,
        promise,
        move || -> (W, WriteOutcome<M>)
            ensures { HasWritten W.is_known W.got W.failed to result.0 mails
                result.1.seat result.1.receipts result.1.end }
        { run_write_side(rt, alloc, server, mails, to, StreamEnd { stream: ends }) },
    );
    match writing {
        Ok(thread) => {
            let (from, read) = run_read_side(rt, alloc, server, gate, calls, from, own, &reads);
            let (to, write) = thread.join(rt);
            (from, to, ConnectionOutcome { read, write, reads })
        }
        Err(refused) => {
            // Without a writing thread, nothing is read.
            let reads = ReadLimit::None(Unstarted::refused(&refused));
            let (from, read) = run_read_side(rt, alloc, server, gate, calls, from, own, &reads);
            let (to, write) = (refused.value)();
            (from, to, ConnectionOutcome { read, write, reads })
        }
    }
}

/// Runs the read side of a connection. If the client has ended its stream, or the reads are used up, the
/// write side still writes what it took. At every other end the stream is ended, which ends the write side
/// too.
fn run_read_side<C: Tally, M: Tally, G: Gate, R: Clock + Wait, H: ReadHalf + Drop, E: HangUp>(
    rt: &R,
    alloc: Global,
    server: &RunningServer<C, M>,
    gate: &G,
    seat: CallSeat<C>,
    from: H,
    stream: StreamEnd<'_, E>,
    reads: &ReadLimit,
) -> (H, ReadOutcome<C>)
    ensures handled { HasHandled H.is_known H.known H.reads H.ended H.failed
        (most_reads reads.now server.now.turns)
        from result.0 seat result.1.seat result.1.sent.items result.1.end }
{
    let mut from = from;
    let turns = Some(reads.most(server.turns));
    let (seat, sent, end) = read_side(rt, alloc, &server.hall, seat, &mut from, gate, turns);
    if end == ReadEnd::Spent {
        server.spend_calls(rt, &seat);
    }
    let parted = match end {
        ReadEnd::Closed | ReadEnd::Turns => stream.leave(),
        _ => stream.hang_up(),
    };
    let outcome = ReadOutcome {
        seat,
        sent,
        end,
        parted,
    };
    (from, outcome)
}

/// Runs the write side of a connection. At its end the stream is ended, which ends the read side too.
fn run_write_side<C: Tally, M: Tally, R: Wait, W: WriteHalf + Drop, E: HangUp>(
    rt: &R,
    alloc: Global,
    server: &RunningServer<C, M>,
    seat: MailSeat<M>,
    to: W,
    stream: StreamEnd<'_, E>,
) -> (W, WriteOutcome<M>)
    ensures { HasWritten W.is_known W.got W.failed to result.0 seat
        result.1.seat result.1.receipts result.1.end }
{
    let mut to = to;
    let (seat, receipts, end) = write_side(rt, alloc, &server.hall, seat, &mut to);
    if end == WriteEnd::Spent {
        server.spend_mails(rt, &seat);
    }
    let outcome = WriteOutcome {
        seat,
        receipts,
        end,
        parted: stream.hang_up(),
    };
    (to, outcome)
}
