//! The seat of a connection's read side (`docs/model.md`, "The hall"). A place is a number of entries, the
//! steps of the server's history.

ghost use Rattle.std.specs.Prelude.{◌≡◌, ◌+◌, true};
ghost use Rattle.fe_shared.specs.Seats.{calls_in, first_call_seat, message_taken, IsNewPart, one_seat};

use crate::free::Free;
use crate::last_answer::LastAnswer;
use crate::message_log::MessageLog;
use crate::seats::Seats;
use crate::shared::Rest;
use fe_history::Tally;
use fe_wire::ClientMessage;
use std::marker::Model;
use std::snapshot::Snapshot;
use std::sync::ledger::{Book, Share};

/// The seat of a connection's read side, the thread that reads. Contracts see the connection's number, and
/// what the side did.
///
/// Only the hall changes it, and only in a hold of the lock, since each change needs the book, which is under
/// the lock.
#[derive(Drop)]
pub struct CallSeat<C: Tally> {
    share: Share<C>,
    conn: u64,
    messages: MessageLog,
    /// The place once its last message was taken: how many entries the history had then, those of the message
    /// among them. 0 if none was taken.
    place: u64,
    last_answer: LastAnswer,
    /// Whether the side removed its connection.
    departed: bool,
    /// Whether it did so with a `Rest`, which shows that it need not wait for what comes of its messages.
    rested: bool,
}

impl<C: Tally> Model for CallSeat<C> {
    ghost use Rattle.std.specs.Prelude.{◌≡◌, ◌+◌};
    ghost use Rattle.fe_shared.specs.Logs.{messages_of};
    ghost use Rattle.fe_shared.specs.Seats.{CallSeatState, IsWholeLedger};

    ghost Value = { CallSeatState };

    ghost view = { λ s. record {
      conn = s.conn;
      calls = s.share.amount;
      messages = messages_of s.messages;
      place = s.place;
      last_answer = s.last_answer;
      departed = s.departed;
      rested = s.rested;
    } };

    ghost invariant = { λ s. (s.share.parts ≡ 1) × IsWholeLedger C.all C.parts };
}

impl<C: Tally> CallSeat<C> {
    /// The seat of a connection just made, with its part of the ledger.
    pub(crate) fn new(share: Share<C>, conn: u64) -> CallSeat<C>
        requires { IsNewPart C.all C.parts share.parts share.amount }
        ensures { result ≡ first_call_seat conn }
    {
        CallSeat {
            share,
            conn,
            messages: MessageLog::Empty,
            place: 0,
            last_answer: LastAnswer::Served,
            departed: false,
            rested: false,
        }
    }

    /// The seat of a side that begins, and what shows that its thread does not hold the lock.
    pub fn begin_side(self) -> (CallSeat<C>, Free)
        ensures { result.0 ≡ self }
    {
        (self, Free::of_side())
    }

    /// The connection's number.
    pub fn conn(&self) -> u64
        ensures { result ≡ self.now.conn }
    {
        self.conn
    }

    /// The place once its last message was taken, 0 if none was.
    pub(crate) fn place(&self) -> u64
        ensures { result ≡ self.now.place }
    {
        self.place
    }

    /// Notes that a message was taken, and the place after all entries then. If the message is a call, it is
    /// counted here and in the book.
    pub(crate) fn take(&mut self, book: &mut Book<C>, message: &ClientMessage, place: u64)
        ensures seat { self.new ≡ message_taken self.old message.now place }
        ensures book { book.new.total ≡ book.old.total + calls_in message.now }
    {
        book.add(&mut self.share, calls_in(message));
        let before = Snapshot::of(&self.messages);
        self.messages = MessageLog::Then(before, Snapshot::of(message));
        self.place = place;
        self.last_answer = LastAnswer::Served;
    }

    /// Records what the hall answered the side last.
    pub(crate) fn set_last_answer(&mut self, _book: &Book<C>, last_answer: LastAnswer)
        ensures { self.new ≡ record self.old { last_answer = last_answer } }
    {
        self.last_answer = last_answer;
    }

    /// Notes that the side removes its connection.
    pub(crate) fn depart(&mut self, _book: &Book<C>)
        ensures { self.new ≡ record self.old { departed = true } }
    {
        self.departed = true;
    }

    /// Notes that the side removes its connection when it need not wait for what comes of its messages, as
    /// `Rest` shows.
    pub(crate) fn rest(&mut self, _book: &Book<C>, _rest: Rest)
        requires own { _rest.conn ≡ self.old.conn }
        ensures { self.new ≡ record self.old { departed = true; rested = true } }
    {
        self.departed = true;
        self.rested = true;
    }

    /// The seat, as the seats of one connection, to which others can be added.
    pub fn into_seats(self) -> Seats<C>
        ensures { result ≡ one_seat self.calls }
    {
        let CallSeat { share, .. } = self;
        Seats::of(share)
    }
}

/// How many calls a message is: 1 or 0.
fn calls_in(message: &ClientMessage) -> u64
    ensures { result ≡ calls_in message.now }
{
    match message {
        ClientMessage::Call { .. } => 1,
        _ => 0,
    }
}
