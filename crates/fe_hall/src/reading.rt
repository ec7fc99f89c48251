//! The read side of a connection, its reading thread: the messages of its client's stream go to the hall, one
//! after another (`docs/model.md`, "The hall").

ghost use Rattle.std.specs.Prelude.{◌≡◌, ◌≢◌, ◌+◌, ◌≤◌, ◌++◌, [], ℕ, List, Some, IfNone, IfSome, OnSome};
ghost use Rattle.std.specs.Prelude.{MatchOption};
ghost use Rattle.fe_shared.specs.Seats.{HasDeparted, HasRested, CallSeatState, TookNoMessage, message_taken};
ghost use Rattle.fe_hall.specs.Reads.{IsQuietEnd, listed_with, EndsEarly, HandlesStream, IsAt, IsOfMessages};
ghost use Rattle.fe_hall.specs.Reads.{IsEndAfter};
ghost use Rattle.fe_hall.specs.within.Sides.{KeepsTurns};

use crate::baton::BatonGuard;
use crate::ends::ReadEnd;
use crate::hall::Hall;
use crate::halves::{Gate, ReadHalf};
use fe_history::{LISTED, Tally};
use fe_memory::{reserve_one, zeros};
use fe_shared::{CallSeat, Free, LastAnswer, PlaceThen};
use fe_wire::{ClientMessage, Decoder, Version};
use std::alloc::Global;
use std::sync::Wait;
use std::time::Clock;

/// How many bytes a read brings at most.
const PIECE_BYTES: u16 = 8192;

/// How many messages make a run. After each run a read side looks whether what came of earlier ones was
/// taken. A connection's box, its mails that wait to go out, takes 128: enough for two runs, and for the
/// answers to requests that wait, 32 at most.
const RUN_LENGTH: u64 = 32;

/// Serves the direction from the client of a connection, until it ends. Each message passes the gate, outside
/// the lock, and goes to the hall, where it may wait until the front has room for what comes of it. `turns`
/// is the most reads that it makes; `None` sets no bound.
///
/// It gives the seat back, with the first 1,024 attaches and calls that were handled. Every end makes the
/// connection gone, unless the hall is stopped. At `Closed` and `Turns` it does so only once all that was
/// made when the last message was handled is durable and the box is empty, or there is no memory to note that
/// it waits for that.
pub fn read_side<C: Tally, M: Tally, H: ReadHalf, G: Gate, R: Clock + Wait>(
    rt: &R,
    alloc: Global,
    hall: &Hall<C, M>,
    seat: CallSeat<C>,
    half: &mut H,
    gate: &G,
    turns: Option<u64>,
) -> (CallSeat<C>, Vec<ClientMessage>, ReadEnd)
    // If the half's bytes are known, and none was read yet, what was handled is the beginning of its stream.
    ensures handled { H.is_known half.old → H.known half.old ≡ []
        → HandlesStream (H.known half.new) seat result.0 result.1.items result.2 }
    ensures own { result.0.conn ≡ seat.conn }
    ensures is_known { H.is_known half.old → H.is_known half.new }
    // It ends as `Turns` only after as many reads as it may make, and makes no more.
    ensures turns { result.2 ≡ ReadEnd.Turns
        → (most : ℕ) × (turns ≡ Some most) × (H.reads half.new ≡ H.reads half.old + most) }
    ensures reads { IfSome turns (λ most. H.reads half.new ≤ H.reads half.old + most) }
    ensures ended { result.2 ≡ ReadEnd.Closed → H.ended half.new }
    ensures failed { result.2 ≡ ReadEnd.Device → H.failed half.new }
    // A side ends as `Gone`, `Stopped` or `Spent` only if that was the hall's last answer to it.
    ensures ended_as { IsEndAfter result.2 result.0.last_answer }
    ensures departed { result.2 ≢ ReadEnd.Stopped → HasDeparted result.0 }
    // At the end of the stream, and after the last read, the connection goes only once the hall let the side
    // rest, or is stopped.
    ensures rested { IsQuietEnd result.2 → HasRested result.0 }
{
    let (seat, mut free) = seat.begin_side();
    let decoder = Decoder::with_version(Version::Two);
    let listed = Vec::new(alloc);
    let mut reading = Reading {
        alloc,
        seat,
        decoder,
        listed,
        run: 0,
        place_then: None,
        in_vain: false,
    };
    let end = reading.read_all(rt, &mut free, hall, half, gate, turns);
    depart(rt, &mut free, hall, &mut reading.seat, end);
    let Reading { seat, listed, .. } = reading;
    (seat, listed, end)
}

/// A read side at work.
#[derive(Drop)]
struct Reading<C: Tally> {
    alloc: Global,
    seat: CallSeat<C>,
    decoder: Decoder,
    /// The first attaches and calls that were handled.
    listed: Vec<ClientMessage>,
    /// How many messages this run has.
    run: u64,
    /// The place (the number of entries so far) when this run began; `None` in the first run.
    place_then: Option<PlaceThen>,
    /// Whether the side gave up its last wait for the write side, whose client reads nothing.
    in_vain: bool,
}

impl<C: Tally> Reading<C> {
    /// Reads as often as it may, until the side ends.
    fn read_all<M: Tally, H: ReadHalf, G: Gate, R: Clock + Wait>(
        &mut self,
        rt: &R,
        free: &mut Free,
        hall: &Hall<C, M>,
        half: &mut H,
        gate: &G,
        turns: Option<u64>,
    ) -> ReadEnd
        ensures handled { H.is_known half.old → H.is_known half.new × (H.known half.old ≡ []
            → IsAt [] self.old.seat self.old.decoder self.old.seat self.old.listed.items
            → HandlesStream (H.known half.new) self.old.seat self.new.seat self.new.listed.items result) }
        ensures own { self.new.seat.conn ≡ self.old.seat.conn }
        ensures turns { KeepsTurns turns result (H.reads half.old) (H.reads half.new) }
        ensures ended { result ≡ ReadEnd.Closed → H.ended half.new }
        ensures failed { result ≡ ReadEnd.Device → H.failed half.new }
        ensures ended_as { IsEndAfter result self.new.seat.last_answer }
    {
        let mut buffer = match zeros(self.alloc, PIECE_BYTES) {
            Ok(buffer) => buffer,
            Err(error) => return ReadEnd::NoMemory(error),
        };
        let piece = buffer.as_mut_slice();
        let mut left = turns;
        for _ in rt.forever() {
            match &mut left {
                Some(0) => return ReadEnd::Turns,
                Some(count) => *count -= 1,
                None => {}
            }
            let count = match half.read(free, piece) {
                Err(_) => return ReadEnd::Device,
                Ok(0) => return ReadEnd::Closed,
                Ok(count) => count,
            };
            if let Some(end) = self.take_piece(rt, free, hall, gate, &piece[..count]) {
                return end;
            }
        }
        unreachable!()
    }

    /// Takes the messages that the next piece of the stream completes, in their order. Returns why the side
    /// ends, if it does.
    fn take_piece<M: Tally, G: Gate, R: Clock + Wait>(
        &mut self,
        rt: &R,
        free: &mut Free,
        hall: &Hall<C, M>,
        gate: &G,
        piece: &[u8],
    ) -> Option<ReadEnd>
        ensures handled { (before : CallSeatState) (bytes : List ℕ)
            → IsAt bytes before self.old.decoder self.old.seat self.old.listed.items
            → MatchOption result (IsAt (bytes ++ piece.now) before self.new.decoder self.new.seat
            self.new.listed.items)
            (HandlesStream (bytes ++ piece.now) before self.new.seat self.new.listed.items) }
        ensures own { self.new.seat.conn ≡ self.old.seat.conn }
        ensures of { IfSome result IsOfMessages }
        ensures ended_as { IfSome result (λ end. IsEndAfter end self.new.seat.last_answer) }
    {
        let fed = match self.decoder.feed(self.alloc, piece) {
            Ok(fed) => fed,
            Err(error) => return Some(ReadEnd::NoMemory(error)),
        };
        let messages = fed.messages.as_slice();
        let mut baton_guard = BatonGuard::none();
        for message in messages {
            // A message that had to wait has given the baton up.
            if messages.len() > 1 {
                baton_guard.take(rt, free, &hall.baton);
            }
            if let Some(end) = self.take(rt, free, hall, gate, message, &mut baton_guard) {
                return Some(end);
            }
        }
        let fault = fed.fault?;
        Some(ReadEnd::BadFrame {
            offset: fault.offset,
        })
    }

    /// Takes a message. After each run but the first it waits until its write side is close behind, or what
    /// came of the messages before that run is taken, so that a client that reads does not find its box full.
    /// Returns why the side ends before the message, if it does.
    fn take<M: Tally, G: Gate, R: Clock + Wait>(
        &mut self,
        rt: &R,
        free: &mut Free,
        hall: &Hall<C, M>,
        gate: &G,
        message: &ClientMessage,
        baton_guard: &mut BatonGuard<'_>,
    ) -> Option<ReadEnd>
        ensures seat { IfNone result ((place : ℕ)
            × (self.new.seat ≡ message_taken self.old.seat message.now place)) }
        ensures listed { IfNone result (self.new.listed.items
            ≡ listed_with self.old.listed.items message.now) }
        ensures untaken { OnSome result (TookNoMessage self.old.seat self.new.seat
            × (self.new.listed.items ≡ self.old.listed.items)) }
        ensures end { IfSome result EndsEarly }
        ensures ended_as { IfSome result (λ end. IsEndAfter end self.new.seat.last_answer) }
        ensures decoder { self.new.decoder ≡ self.old.decoder }
    {
        let lists = match message {
            ClientMessage::Attach { .. } | ClientMessage::Call { .. } => self.listed.len() < LISTED,
            _ => false,
        };
        if lists {
            if let Err(error) = reserve_one(&mut self.listed) {
                return Some(ReadEnd::NoMemory(error));
            }
        }
        if !gate.passes_at_once(self.seat.conn()) {
            baton_guard.give_up();
            gate.pass(rt, free, self.seat.conn());
        }
        if self.run < RUN_LENGTH {
            self.run += 1;
        } else {
            let (place_then, in_vain) = match &self.place_then {
                Some(place_then) => hall.await_room(
                    rt,
                    free,
                    self.seat.conn(),
                    place_then,
                    self.in_vain,
                    baton_guard,
                ),
                None => (hall.place_then(rt, free), false),
            };
            self.run = 1;
            self.in_vain = in_vain;
            self.place_then = Some(place_then);
        }
        // A report may be long, and a client may ask for many and read none. So each waits until the replies
        // before it are written.
        if matches!(message, ClientMessage::Report) {
            baton_guard.give_up();
            hall.await_rest(rt, free, &self.seat);
        }
        match hall.handle(rt, free, self.alloc, message, &mut self.seat, baton_guard) {
            LastAnswer::Served => {}
            LastAnswer::Gone => return Some(ReadEnd::Gone),
            LastAnswer::Stopped => return Some(ReadEnd::Stopped),
            LastAnswer::Spent => return Some(ReadEnd::Spent),
        }
        if lists && self.listed.push(*message).is_err() {
            unreachable!();
        }
        None
    }
}

/// Removes the connection of a read side that ended so, except at `Stopped`; at `Closed` and `Turns` once it
/// is drained (`Hall::drain`).
fn depart<C: Tally, M: Tally, R: Wait>(
    rt: &R,
    free: &mut Free,
    hall: &Hall<C, M>,
    seat: &mut CallSeat<C>,
    end: ReadEnd,
)
    ensures untaken { TookNoMessage seat.old seat.new }
    ensures ended_as { IsEndAfter end seat.old.last_answer → IsEndAfter end seat.new.last_answer }
    ensures departed { end ≢ ReadEnd.Stopped → HasDeparted seat.new }
    ensures rested { IsQuietEnd end → HasRested seat.new }
{
    match end {
        ReadEnd::Closed => hall.drain(rt, free, seat),
        ReadEnd::Turns => hall.drain(rt, free, seat),
        ReadEnd::Stopped => {}
        _ => hall.leave_by_reader(rt, free, seat),
    }
}
