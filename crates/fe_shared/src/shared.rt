//! What is under the lock of a hall: the front, with a ledger of its calls and one of the mails that were
//! taken. A ledger has parts whose counts add up to its own, and exists in proofs alone; a hold is one time
//! that a thread has the lock (`docs/model.md`, "The hall").

ghost use Rattle.std.specs.Prelude.{IsNone, ◌≡◌, ◌≢◌, ◌+◌, ◌≤◌, ◌↔◌, ℕ, List, [], true, false, Ok, Err, Some};
ghost use Rattle.std.specs.Prelude.{None, IsTrue, IsErr, IfErr, IfOk, length, OnOk, OnErr, IfSome};
ghost use Rattle.std.specs.Prelude.{MatchOption};
ghost use Rattle.fe_state.specs.declared.entry.Entry.{Entry};
ghost use Rattle.fe_front.specs.Front.{has_room, is_connected};
ghost use Rattle.fe_mail.specs.Books.{AddUp};
ghost use Rattle.fe_mail.specs.Connections.{session_on};
ghost use Rattle.fe_front.specs.Event as event;
ghost use Rattle.fe_messages.specs.Taking.{Takes};
ghost use Rattle.fe_history.specs.Acts.{GoesOnFrom, IsLegal};
ghost use Rattle.fe_history.specs.Rules.{Hears};
ghost use Rattle.fe_shared.specs.Bells.{owed_by_look, owed_by_message, sides_if};
ghost use Rattle.fe_shared.specs.Marks.{IsBegun, MayBeIssued, waits};
ghost use Rattle.fe_shared.specs.Holds.{IsDrained, IsOver, IsUnconnected, Leaves, MakesStep, MakesEvent};
ghost use Rattle.fe_shared.specs.Holds.{MakesNoEvent, MakesNothing, TakesMail};
ghost use Rattle.fe_shared.specs.Seats.{HasRested, IsOpen, TookNoMessage, message_answered, taking_answered};
ghost use Rattle.fe_shared.specs.Seats.{takes_more, most_connections, IsBlankOf};

mod batches;

use crate::bells::{Bells, Owed, Whom};
use crate::call_seat::CallSeat;
use crate::last_answer::LastAnswer;
use crate::mail_seat::MailSeat;
use crate::new_seats::NewSeats;
use crate::pace::Paces;
use crate::seats::Seats;
use crate::taking::Taking;
use crate::unconnected::Unconnected;
use crate::watchers::Watchers;
pub use batches::{AllDurable, CutBatch, CutOutcome, FullBook, NotOut, Posted, Uncut, Unposted};
use fe_front::{Books, Front};
use fe_history::{Account, History, HistoryWords, Tally};
use fe_memory::OutOfMemory;
use fe_messages::take_message;
use fe_wire::ClientMessage;
use std::alloc::Global;
use std::marker::Model;
use std::sync::Condvar;
use std::sync::ledger::{Blank, Book, Share};

/// The most connections that a hall makes.
const CONNECTIONS: u64 = 1 << 62;

/// How many parts each ledger of a hall has: one for each connection that it may make, and one for the book.
pub const PARTS: u64 = CONNECTIONS + 1;

/// The most that a book of a hall may count before its sides end. One post more stays below 2^63.
const MOST_COUNTED: u64 = (1 << 63) - 8192;

/// The front and its ledgers, which agree with its books.
#[derive(Drop)]
pub struct Shared<C: Tally, M: Tally> {
    front: Front,
    calls: Book<C>,
    mails: Book<M>,
    spare_calls: Share<C>,
    spare_mails: Share<M>,
    /// What was cut, what connections asked for and called, and what was stored, at least as far as it is
    /// posted.
    history: History<M>,
    /// How many batches were posted.
    posted: u64,
    /// How many connections were made.
    connections_made: u64,
    watchers: Watchers,
    paces: Paces,
    stopped: bool,
    /// Whether the event of this hold was made.
    used: bool,
    ghost open: { IsOpen front.books },
    ghost calls_agree: { calls.total ≡ front.books.calls },
    ghost mails_agree: { mails.total ≡ front.books.taken },
    ghost few: { connections_made ≤ most_connections },
    ghost call_parts: { (spare_calls.parts + connections_made ≡ C.all) × (spare_calls.amount ≡ 0)
        × (C.all ≡ most_connections + 1) },
    ghost mail_parts: { (spare_mails.parts + connections_made ≡ M.all) × (spare_mails.amount ≡ 0)
        × (M.all ≡ most_connections + 1) },
}

impl<C: Tally, M: Tally> Model for Shared<C, M> {
    ghost use Rattle.std.specs.Coded.{codes};
    ghost use Rattle.fe_front.specs.Front.{front_code};
    ghost use Rattle.fe_history.specs.contracts.act.Act as acts;
    ghost use Rattle.fe_shared.specs.Marks.{IsMarked, SharedState};
    ghost use Rattle.fe_shared.specs.Seats.{IsWholeLedger};

    ghost Value = { SharedState };

    ghost coded = { Prim.hlevel (codes, front_code, acts.the_row.coded) };

    ghost view = { λ s. record {
      front = s.front;
      history = s.history;
      connections_made = s.connections_made;
      stopped = s.stopped;
      used = s.used;
      watched = s.watchers.items.items;
    } };

    ghost invariant = { λ s. IsMarked s.front s.posted s.history
        × (IsWholeLedger C.all C.parts × IsWholeLedger M.all M.parts) };
}

/// The right to make connections in a hall. There is one, which the hall gives to the caller that begins it.
#[derive(Drop)]
pub struct ConnectRight(());

/// The right to begin holds of a hall's lock. There is one, which the lock keeps.
#[derive(Drop)]
pub struct HoldRight(());

/// Shows that a connection with some number was connected. Only `Shared::connect` makes one.
#[derive(Clone, Copy, PartialEq, Eq)]
pub struct InUse(());

/// Shows that a hall had made all its connections. Only `Shared::connect` makes one.
#[derive(Clone, Copy, PartialEq, Eq)]
pub struct AllMade(());

/// Shows that a hall was stopped. Only `Shared::stop` makes one.
#[derive(Clone, Copy)]
pub struct HasStopped(());

/// The place after all entries that were made when a read side looked. Only `Shared::place_then` makes one.
#[derive(Drop)]
pub struct PlaceThen {
    place: u64,
}

impl Model for PlaceThen {
    ghost Value = { ℕ };

    ghost view = { λ m. m.place };
}

/// Shows that the read side of a connection need not wait for what comes of its messages. Only `Shared::rest`
/// makes one.
#[derive(Drop)]
pub struct Rest {
    conn: u64,
    /// Whether there was no memory to note that the side waits.
    short: Option<OutOfMemory>,
}

impl Model for Rest {
    ghost use Rattle.std.specs.Prelude.{is_some};
    ghost use Rattle.fe_shared.specs.Shown.{Rest};

    ghost Value = { Rest };

    ghost view = { λ r. record { conn = r.conn; short = is_some r.short } };
}

/// Shows that the seats that were handed in were not those of all connections that were made, or that another
/// side stored groups. Only `Shared::audit` and `SeatMissing::in_account` make one.
#[derive(Clone, Copy, PartialEq, Eq)]
pub struct SeatMissing(());

impl SeatMissing {
    /// Shows that this account's history has groups that the committing side did not note; `None` if it has
    /// no such groups.
    pub fn in_account(account: &Account) -> Option<SeatMissing>
        ensures { IsNone result ↔ (account.now.own ≡ true) }
    {
        if account.own() {
            None
        } else {
            Some(SeatMissing(()))
        }
    }
}

impl<C: Tally, M: Tally> Shared<C, M> {
    /// A front that has only begun, with no connection made, the rights to make some and to begin holds, and
    /// the bells. Before the first hold there is no event.
    pub fn new(
        alloc: Global,
        front: Front,
        calls: Blank,
        mails: Blank,
        history: History<M>,
        sides: Vec<Condvar>,
    ) -> (Shared<C, M>, ConnectRight, HoldRight, Bells)
        requires begun { IsBegun front history }
        requires legal { IsLegal history }
        requires calls { IsBlankOf C.name C.parts C.all calls.name calls.parts }
        requires mails { IsBlankOf M.name M.parts M.all mails.name mails.parts }
        requires sides { length sides.items ≡ 256 }
        ensures { result.0.front ≡ front }
    {
        let (called, spare_calls) = calls.open::<C>();
        let (taken, spare_mails) = mails.open::<M>();
        let shared = Shared {
            front,
            calls: called,
            mails: taken,
            spare_calls,
            spare_mails,
            history,
            posted: 0,
            connections_made: 0,
            watchers: Watchers::new(alloc),
            paces: Paces::new(alloc),
            stopped: false,
            used: true,
        };
        (shared, ConnectRight(()), HoldRight(()), Bells::new(sides))
    }

    /// Begins a hold, in which one event may be made.
    pub fn begin_hold(&mut self, _right: &HoldRight)
        ensures { self.new ≡ record self.old { used = false } }
    {
        self.used = false;
    }

    /// Makes a connection with an empty box, and its seats.
    pub fn connect(
        &mut self,
        _right: &ConnectRight,
        conn: u64,
    ) -> Result<NewSeats<C, M>, Unconnected>
        requires fresh { self.old.used ≡ false }
        ensures step { OnOk result (MakesStep self.old (event.Connect conn) [] self.new) }
        ensures err { OnErr result (MakesNothing self.old self.new) }
        ensures in_use { is_connected self.old.front conn ≡ true → IsErr result }
        ensures why { IfErr result (IsUnconnected self.old.front self.old.connections_made conn) }
        ensures connections_made { OnOk result (self.new.connections_made ≡ self.old.connections_made + 1) }
        ensures unmade { OnErr result (self.new.connections_made ≡ self.old.connections_made) }
        ensures seats { IfOk result (λ seats. seats ≡ conn) }
    {
        self.used = true;
        if self.front.connected(conn) {
            return Err(Unconnected::InUse(InUse(())));
        }
        if self.connections_made == CONNECTIONS {
            return Err(Unconnected::Spent(AllMade(())));
        }
        let _ = self.front.state();
        if let Err(error) = self.front.connect(conn) {
            return Err(Unconnected::NoMemory(error));
        }
        let calls = self.spare_calls.split_off(1, 0);
        let mails = self.spare_mails.split_off(1, 0);
        self.connections_made += 1;
        self.paces.begin(conn);
        Ok(NewSeats::new(calls, mails, conn))
    }

    /// Handles a message, or records in the read side's seat why it does not. If there is no room for the
    /// message, does nothing and returns `None`. If the message asks for a session or calls a request, the
    /// history learns which.
    pub fn handle(
        &mut self,
        alloc: Global,
        history_words: &HistoryWords<M>,
        message: &ClientMessage,
        seat: &mut CallSeat<C>,
        owed: &mut Owed,
    ) -> Option<LastAnswer>
        requires fresh { self.old.used ≡ false }
        requires unowed { owed.old.whom ≡ Whom.Nobody }
        ensures taken { result ≡ Some LastAnswer.Served
            → (es : List Entry) × Takes self.old.front seat.old.conn message.now es self.new.front
            × MakesEvent self.old self.new }
        ensures other { result ≢ Some LastAnswer.Served → MakesNothing self.old self.new }
        ensures heard { result ≡ Some LastAnswer.Served
            → Hears self.old.history seat.old.conn (session_on self.old.front.connections seat.old.conn)
            self.old.front.service.state.place message.now self.new.history }
        ensures unheard { result ≢ Some LastAnswer.Served → self.new.history ≡ self.old.history }
        ensures seat { MatchOption result (seat.new ≡ seat.old)
            (λ s. seat.new ≡ message_answered seat.old message.now self.new.front.service.state.place s) }
        // Each other answer has its reason, and `Stopped` comes first.
        ensures stopped { (result ≡ Some LastAnswer.Stopped) ↔ (self.old.stopped ≡ true) }
        ensures gone { result ≡ Some LastAnswer.Gone → is_connected self.old.front seat.old.conn ≡ false }
        ensures spent { result ≡ Some LastAnswer.Spent → takes_more self.old.front.books ≡ false }
        ensures full { result ≡ None → has_room self.old.front ≡ false }
        ensures owes { result ≡ Some LastAnswer.Served → owed.new.whom
            ≡ owed_by_message seat.old.conn self.old.front.books.mails self.new.front.books.mails }
    {
        self.used = true;
        if self.stopped {
            seat.set_last_answer(&self.calls, LastAnswer::Stopped);
            return Some(LastAnswer::Stopped);
        }
        if !self.front.connected(seat.conn()) {
            seat.set_last_answer(&self.calls, LastAnswer::Gone);
            return Some(LastAnswer::Gone);
        }
        let books = self.front.books();
        let takes_more = books.calls < MOST_COUNTED && books.mails < MOST_COUNTED;
        if !takes_more {
            seat.set_last_answer(&self.calls, LastAnswer::Spent);
            return Some(LastAnswer::Spent);
        }
        if !self.front.room() {
            return None;
        }
        // It names what is always true of the front (`docs/DECISIONS.md`, "Toolchain").
        let _ = self.front.state();
        let conn = seat.conn();
        let took = take_message(alloc, &mut self.front, conn, *message);
        seat.take(&mut self.calls, message, self.front.state().place());
        self.history.hear(history_words, &self.mails, took);
        self.history.shows_legal();
        self.paces.note_message(conn, books.withdrawn, &self.front);
        owed.whom = Whom::of_message(conn, books.mails, self.front.books().mails);
        Some(LastAnswer::Served)
    }

    /// Notes that the read side of a connection waits for its box. Fails if there is no memory for that.
    pub fn watch(&mut self, conn: u64, owed: &mut Owed) -> Result<(), OutOfMemory>
        requires unowed { owed.old.whom ≡ Whom.Nobody }
        ensures watched { OnOk result (IsTrue (waits self.new.watched conn)) }
        ensures still { MakesNoEvent self.old self.new }
        ensures owes { owed.new.whom ≡ Whom.Sides conn }
    {
        owed.whom = Whom::Sides(conn);
        self.watchers.add(conn)
    }

    /// Notes that the read side of a connection waits no more.
    pub fn unwatch(&mut self, conn: u64, owed: &mut Owed)
        requires unowed { owed.old.whom ≡ Whom.Nobody }
        ensures still { MakesNoEvent self.old self.new }
        ensures owes { owed.new.whom ≡ sides_if (waits self.old.watched conn) conn }
    {
        owed.whom = Whom::sides_if(self.watchers.remove(conn), conn);
    }

    /// Whether it is noted that the read side of a connection waits for its box.
    pub fn is_watched(&self, conn: u64) -> bool
        ensures watched { result ≡ waits self.now.watched conn }
    {
        self.watchers.has(conn)
    }

    /// Notes that bytes of a connection's replies went out. Returns whether its read side is noted as waiting
    /// for its box.
    pub fn note_written(&mut self, conn: u64) -> bool
        ensures watched { result ≡ waits self.new.watched conn }
        ensures still { MakesNoEvent self.old self.new }
    {
        self.watchers.note_move(conn)
    }

    /// Stops the hall. This is no event of the front, and the hold makes none after it.
    pub fn stop(&mut self, owed: &mut Owed) -> HasStopped
        requires fresh { self.old.used ≡ false }
        requires unowed { owed.old.whom ≡ Whom.Nobody }
        ensures stopped { self.new.stopped ≡ true }
        ensures used { self.new.used ≡ true }
        ensures front { self.new.front ≡ self.old.front }
        ensures owes { owed.new.whom ≡ Whom.All }
    {
        self.used = true;
        self.stopped = true;
        owed.whom = Whom::All;
        HasStopped(())
    }

    /// Whether no more messages of a connection are handled: it is gone, or the hall is stopped.
    pub fn is_over(&self, conn: u64) -> bool
        ensures { IsTrue result ↔ IsOver self.now.front self.now.stopped conn }
    {
        self.stopped || !self.front.connected(conn)
    }

    /// The place after all entries made so far.
    pub fn place_then(&self) -> PlaceThen
        ensures { result ≡ self.now.front.service.state.place }
    {
        PlaceThen {
            place: self.front.state().place(),
        }
    }

    /// Whether a read side need not wait for the entries before this place: they are durable and its box is
    /// empty; or its connection is gone, or the hall stopped.
    fn is_drained(&self, conn: u64, place: u64) -> bool
        ensures { IsTrue result ↔ IsDrained self.now.front self.now.stopped conn place }
    {
        self.is_over(conn)
            || self.front.durable() >= place && !self.front.connections().has_mail(conn)
    }

    /// Whether the read side of a connection need not wait for what comes of its messages. If `None`, it is
    /// noted that it waits.
    pub fn rest(&mut self, seat: &CallSeat<C>) -> Option<Rest>
        ensures watched { IsNone result → IsTrue (waits self.new.watched seat.now.conn) }
        ensures own { IfSome result (λ rest. rest.conn ≡ seat.now.conn) }
        ensures drained { IfSome result (λ rest. rest.short ≡ false
            → IsDrained self.old.front self.old.stopped seat.now.conn seat.now.place) }
        ensures still { MakesNoEvent self.old self.new }
    {
        let conn = seat.conn();
        if self.is_drained(conn, seat.place()) {
            let _ = self.watchers.remove(conn);
            return Some(Rest { conn, short: None });
        }
        let short = self.watchers.add(conn).err();
        if short.is_none() {
            return None;
        }
        Some(Rest { conn, short })
    }

    /// Whether the read side of a connection may hand on more messages: its write side is close behind; or
    /// the entries before `place_then` are durable and its box is empty; or the connection is gone, or the
    /// hall stopped; or there is no memory to note that the side waits. If it may not, it is noted as
    /// waiting.
    pub fn may_go_on(&mut self, conn: u64, place_then: &PlaceThen) -> bool
        ensures waits { result ≡ false → ¬ IsDrained self.old.front self.old.stopped conn place_then.now }
        ensures watched { result ≡ false → IsTrue (waits self.new.watched conn) }
        ensures still { MakesNoEvent self.old self.new }
    {
        if self.paces.is_close(conn) || self.is_drained(conn, place_then.place) {
            let _ = self.watchers.remove(conn);
            return true;
        }
        self.watchers.add(conn).is_err()
    }

    /// Whether all entries before `place_then` are stored and posted.
    pub fn is_durable(&self, place_then: &PlaceThen) -> bool
        ensures { IsTrue result ↔ (place_then.now ≤ self.now.front.durable) }
    {
        self.front.durable() >= place_then.place
    }

    /// Whether a timed wait of a connection's read side goes on: it has to wait for the entries before
    /// `place_then` (`is_drained`), and its write side has taken and written nothing since it was noted that
    /// the side waits.
    pub fn is_stuck(&self, conn: u64, place_then: &PlaceThen) -> bool
        ensures { IsTrue result → ¬ IsDrained self.now.front self.now.stopped conn place_then.now }
    {
        !self.is_drained(conn, place_then.place) && self.watchers.is_still(conn)
    }

    /// Takes the first mail out of a connection's box, or records in the write side's seat why none comes.
    /// `None` says that one may come.
    pub fn take_mail(&mut self, seat: &mut MailSeat<M>, owed: &mut Owed) -> Option<Taking>
        requires fresh { self.old.used ≡ false }
        requires unowed { owed.old.whom ≡ Whom.Nobody }
        ensures takes { TakesMail self.old seat.old.conn result self.new }
        ensures seat { MatchOption result (seat.new ≡ seat.old)
            (λ taking. seat.new ≡ taking_answered seat.old taking) }
        ensures stored { IfSome result (λ taking. MayBeIssued seat.old.conn taking self.new.history) }
        ensures owes { owed.new.whom ≡ owed_by_look seat.old.conn (waits self.new.watched seat.old.conn)
            result }
    {
        self.used = true;
        let _ = self.front.state();
        let conn = seat.conn();
        if let Some(mail) = self.front.take_mail(conn) {
            let more = self.front.connections().has_mail(conn);
            seat.take(&mut self.mails, &mail, more);
            let watched = self.watchers.note_move(conn);
            self.paces.note_mail(conn);
            owed.whom = Whom::of_look(more, watched, conn);
            return Some(Taking::Mail { mail, more });
        }
        if !self.front.connected(conn) {
            seat.set_last_answer(&self.mails, LastAnswer::Gone);
            return Some(Taking::Gone);
        }
        if self.stopped {
            seat.set_last_answer(&self.mails, LastAnswer::Stopped);
            return Some(Taking::Stopped);
        }
        if self.front.books().taken >= MOST_COUNTED {
            seat.set_last_answer(&self.mails, LastAnswer::Spent);
            return Some(Taking::Spent);
        }
        None
    }

    /// Adds to a thread's history what was cut, what connections asked for and called, and what was stored,
    /// at least as far as it is posted.
    pub fn teach(&self, history: &mut History<M>)
        ensures { GoesOnFrom history.old self.now.history history.new }
    {
        history.learn(&self.history);
    }

    /// Removes a connection, with its box and what waits of its session: the event of this hold.
    fn drop_connection(&mut self, conn: u64, owed: &mut Owed)
        requires unowed { owed.old.whom ≡ Whom.Nobody }
        ensures step { Leaves self.old conn self.new }
        ensures owes { owed.new.whom ≡ Whom.Sides conn }
    {
        self.used = true;
        let _ = self.front.state();
        let _ = self.front.gone(conn);
        owed.whom = Whom::Sides(conn);
    }

    /// Removes the connection of a read side.
    pub fn leave_by_reader(&mut self, seat: &mut CallSeat<C>, owed: &mut Owed)
        requires fresh { self.old.used ≡ false }
        requires unowed { owed.old.whom ≡ Whom.Nobody }
        ensures step { Leaves self.old seat.old.conn self.new }
        ensures seat { seat.new ≡ record seat.old { departed = true } }
        ensures owes { owed.new.whom ≡ Whom.Sides seat.old.conn }
    {
        self.drop_connection(seat.conn(), owed);
        seat.depart(&self.calls);
    }

    /// Removes the connection of a write side.
    pub fn leave_by_writer(&mut self, seat: &mut MailSeat<M>, owed: &mut Owed)
        requires fresh { self.old.used ≡ false }
        requires unowed { owed.old.whom ≡ Whom.Nobody }
        ensures step { Leaves self.old seat.old.conn self.new }
        ensures seat { seat.new ≡ record seat.old { departed = true } }
        ensures owes { owed.new.whom ≡ Whom.Sides seat.old.conn }
    {
        self.drop_connection(seat.conn(), owed);
        seat.depart(&self.mails);
    }

    /// Removes the connection of a read side that need not wait. If the hall is stopped, records that
    /// instead, and the write side goes on.
    pub fn depart(&mut self, seat: &mut CallSeat<C>, rest: Rest, owed: &mut Owed)
        requires fresh { self.old.used ≡ false }
        requires unowed { owed.old.whom ≡ Whom.Nobody }
        requires own { rest.conn ≡ seat.old.conn }
        ensures rested { HasRested seat.new }
        ensures untaken { TookNoMessage seat.old seat.new }
        ensures step { self.old.stopped ≡ false → Leaves self.old seat.old.conn self.new }
        ensures stopped { self.old.stopped ≡ true → MakesNothing self.old self.new }
        ensures owes { self.old.stopped ≡ false → owed.new.whom ≡ Whom.Sides seat.old.conn }
    {
        if self.stopped {
            self.used = true;
            seat.set_last_answer(&self.calls, LastAnswer::Stopped);
            return;
        }
        self.drop_connection(seat.conn(), owed);
        seat.rest(&self.calls, rest);
    }

    // Whether the seats are those of all connections that were made.
    fn made_all(&self, calls: &Seats<C>, mails: &Seats<M>) -> bool
        ensures { IsTrue result ↔ ((calls.now.connections ≡ self.now.connections_made)
            × (mails.now.connections
            ≡ self.now.connections_made)) }
    {
        calls.connections() == self.connections_made && mails.connections() == self.connections_made
    }

    /// The books, once all seats of the hall are here.
    pub fn audit(self, calls: Seats<C>, mails: Seats<M>) -> Result<Books, SeatMissing>
        ensures all { IfOk result
            (λ books. (books.calls ≡ calls.amount) × (books.taken ≡ mails.amount)
            × (books ≡ self.front.books)) }
        ensures add_up { IfOk result (λ books. AddUp books) }
        ensures unspent { IfOk result (λ books. books.spent ≡ false) }
        // It fails only if the seats are not those of all connections that were made.
        ensures missing { IsErr result → calls.connections ≡ self.connections_made → mails.connections
            ≡ self.connections_made → ⊥ }
    {
        if !self.made_all(&calls, &mails) {
            drop(self);
            drop(calls);
            drop(mails);
            return Err(SeatMissing(()));
        }
        let Shared {
            front,
            calls: mut called,
            mails: mut taken,
            spare_calls,
            spare_mails,
            history,
            posted: _,
            connections_made: _,
            watchers,
            paces,
            stopped: _,
            used: _,
        } = self;
        drop(watchers);
        drop(paces);
        drop(history);
        let books = front.books();
        drop(front);
        calls.audit(&mut called, spare_calls);
        drop(called);
        mails.audit(&mut taken, spare_mails);
        drop(taken);
        Ok(books)
    }
}
