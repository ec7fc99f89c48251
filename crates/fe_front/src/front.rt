//! The front of the server: it takes the events of connections, and mails what their entries bring once these
//! are stored (`docs/model.md`, "The front"). "Mails, connections and books" there explains the books,
//! "Waiting requests" the attachments.

ghost use Rattle.std.specs.Prelude.{◌≡◌, ◌⊎◌, ◌+◌, ◌↔◌, List, not, slice_get, Some, None, Ok, Err, IsTrue};
ghost use Rattle.std.specs.Prelude.{IsOk, IsErr, IfOk, IfErr, OnOk, OnErr, MatchResult};
ghost use Rattle.std.specs.Option.{option_map};
ghost use Rattle.std.specs.FinMap.{get, len};
ghost use Rattle.fe_memory.specs.Memory.{out_of_memory};
ghost use Rattle.fe_state.specs.State as states;
ghost use Rattle.fe_state.specs.declared.entry.Entry.{Entry};
ghost use Rattle.fe_mail.specs.Books.{Balances};
ghost use Rattle.fe_mail.specs.Connections.{session_on, mails_on, mails_in};
ghost use Rattle.fe_mail.specs.declared.mail.Mail.TheVariants as mails;
ghost use Rattle.fe_mail.specs.declared.refusal.Refusal as refusals;
ghost use Rattle.fe_front.specs.Front.{IsFront, IsFirst, has_room, is_connected, is_attached};
ghost use Rattle.fe_front.specs.Event as event;
ghost use Rattle.fe_front.specs.Step.{FrontStep};
ghost use Rattle.fe_front.specs.Steps.{connected, attached_to, settled_to, closed_by, cancelled_by, dropped};
ghost use Rattle.fe_front.specs.Steps.{departing, has_no_cut, next_batch, cut, taken, mailed};
ghost use Rattle.fe_front.specs.Call.{attaching, settling, leaving, cancelling, IsCallRefused, WantsMemory};
ghost use Rattle.fe_front.specs.Call.{call_refused_by};
ghost use Rattle.fe_front.specs.Posting.{IsOut, posted, Notes};

use crate::connection_set::ConnectionSet;
use crate::out::Out;
use crate::outcome::{StrangeBatch, TakenCall};
use fe_mail::{Books, Connections, Mail, Refusal, ReportText};
use fe_memory::OutOfMemory;
use fe_service::Service;
use fe_state::{Batch, Entries, Request, State, WAITING};
use fe_words::Op;
use std::alloc::Global;
use std::marker::Model;

/// The state, the sessions' attachments and what waits, the connections with their boxes of mails, the
/// entries on their way to the store, and the books, which count calls and mails.
///
/// After each event none of the requests that wait may be served. Only `new`, `connect` and a request that
/// makes an array take memory.
pub struct Front {
    pub(crate) service: Service,
    pub(crate) connections: Connections,
    pub(crate) books: Books,
    pub(crate) durable: u64,
    pub(crate) out: Option<Out>,
    // The memory for the entries after a cut. It is lent while a batch is out.
    pub(crate) spare: Option<Entries>,
}

impl Drop for Front {
    fn drop(self) {
        let Front {
            service,
            connections,
            books: _,
            durable: _,
            out: _,
            spare,
        } = self;
        drop(service);
        drop(connections);
        drop(spare);
    }
}

impl Model for Front {
    ghost use Rattle.fe_front.specs.Front.{FrontState, front_code};

    ghost Value = { FrontState };

    ghost coded = { front_code };

    ghost use Rattle.fe_front.specs.within.Inside.{front_of, IsSound};

    ghost view = { front_of };

    ghost invariant = { IsSound };
}

impl Front {
    /// A front over a state whose entries are all durable. Each session has an attachment and no connection.
    /// Only connections and new arrays take memory later. Fails only if memory runs out.
    pub fn new(alloc: Global, state: State) -> Result<Front, OutOfMemory>
        ensures { IfOk result (IsFirst state) }
    {
        let durable = state.place();
        let service = Service::new(alloc, state)?;
        let spare = match Entries::new(alloc) {
            Ok(spare) => Some(spare),
            Err(error) => {
                drop(service);
                return Err(error);
            }
        };
        Ok(Front {
            service,
            connections: Connections::new(alloc),
            books: Books::new(),
            durable,
            out: None,
            spare,
        })
    }

    /// Adds a connection with no session and an empty box. Fails only if memory runs out.
    pub fn connect(&mut self, conn: u64) -> Result<(), OutOfMemory>
        requires unconnected { get self.old.connections conn ≡ None }
        ensures connected { OnOk result (self.new ≡ connected self.old conn) }
        ensures err { OnErr result (self.new ≡ self.old) }
    {
        self.connections.connect(conn)
    }

    /// Whether at most `WAITING` entries are pending, so that a batch has room for those of one more event.
    /// `attach`, `call`, `settle` and `bye` need that.
    pub fn room(&self) -> bool
        ensures { result ≡ has_room self.now }
    {
        self.service.pending_count() <= WAITING
    }

    /// Gives a session, which may be new, to a connection, with an entry. The connection leaves the session
    /// that it has, and a connection that has the session loses it; the requests of both sessions go on
    /// waiting. The refusals are `NotAttached`, `Closing`, `SessionLimit` and `Spent`.
    pub fn attach(&mut self, conn: u64, session: u64) -> Result<(), Refusal>
        requires room { IsTrue (has_room self.old) }
        ensures attached { MatchResult (attaching self.old conn session)
            (λ _. IsOk result × (self.new ≡ attached_to self.old conn session))
            (λ refusal. (result ≡ Err refusal) × (self.new ≡ self.old)) }
    {
        let _ = self.state();
        self.attaching(conn, session)?;
        self.release(conn);
        let _ = self.state();
        self.free(session);
        self.join(conn, session);
        Ok(())
    }

    /// Completes a new request of the session that the connection has, and serves the waiting requests that
    /// may be served then; or lets it wait. If the request repeats that of its number, its answer is mailed
    /// again if its entry is durable. The books count each call, also one that is refused.
    pub fn call(&mut self, conn: u64, number: u64, request: Request) -> Result<TakenCall, Refusal>
        requires room { IsTrue (has_room self.old) }
        ensures step { IfOk result
            (λ call. (entries : List Entry)
            × FrontStep self.old (event.Call conn number request call.outcome) entries self.new) }
        ensures session { IfOk result (λ call. session_on self.old.connections conn ≡ Some call.session) }
        ensures refused { (refusal : refusals.Refusal) → IsCallRefused self.old conn number request refusal
            → result ≡ Err refusal }
        ensures refusal { IfErr result
            (λ refusal. IsCallRefused self.old conn number request refusal
            ⊎ ((refusal ≡ Refusal.NoMemory out_of_memory) × WantsMemory self.old conn number request)) }
        ensures err { OnErr result (self.new ≡ call_refused_by self.old) }
    {
        match self.addressed(conn, number, &request) {
            Ok(session) => match self.call_within(conn, session, number, request) {
                Ok(outcome) => Ok(TakenCall { session, outcome }),
                Err(refusal) => {
                    self.books.call_refused();
                    Err(refusal)
                }
            },
            Err(refusal) => {
                self.books.call_refused();
                Err(refusal)
            }
        }
    }

    /// Sets the floor of the connection's session, the least number of its window, with an entry, and returns
    /// the session. The floor may stay as it is. The refusals are `NotAttached`, `Closing`, `BelowFloor`,
    /// `BeyondWindow`, `StillWaiting` and `Spent`.
    pub fn settle(&mut self, conn: u64, floor: u64) -> Result<u64, Refusal>
        requires room { IsTrue (has_room self.old) }
        ensures settled { MatchResult (settling self.old conn floor)
            (λ session. IsOk result × (self.new ≡ settled_to self.old session floor))
            (λ refusal. (result ≡ Err refusal) × (self.new ≡ self.old)) }
        ensures session { IfOk result (λ session. session_on self.old.connections conn ≡ Some session) }
    {
        let _ = self.state();
        let session = self.settling(conn, floor)?;
        self.service.settle(session, floor);
        Ok(session)
    }

    /// Closes the connection's session, with an entry, withdraws its waiting requests, and returns it. The
    /// session is closing until that entry is posted. The refusals are `NotAttached`, `Closing` and `Spent`.
    pub fn bye(&mut self, conn: u64) -> Result<u64, Refusal>
        requires room { IsTrue (has_room self.old) }
        ensures closed { MatchResult (leaving self.old conn)
            (λ session. IsOk result × (self.new ≡ closed_by self.old session))
            (λ refusal. (result ≡ Err refusal) × (self.new ≡ self.old)) }
        ensures session { IfOk result (λ session. session_on self.old.connections conn ≡ Some session) }
    {
        let _ = self.state();
        let session = self.leaving(conn)?;
        let count = self.service.close(session);
        self.books.waiters_withdrawn(count);
        Ok(session)
    }

    /// Withdraws a waiting request of the connection's session, mails the connection a withdrawal, and
    /// returns the session. The refusals are `NotAttached`, `Closing` and `NotWaiting`.
    pub fn cancel(&mut self, conn: u64, number: u64) -> Result<u64, Refusal>
        ensures cancelled { MatchResult (cancelling self.old conn number)
            (λ session. IsOk result × (self.new ≡ cancelled_by self.old conn session number))
            (λ refusal. (result ≡ Err refusal) × (self.new ≡ self.old)) }
        ensures session { IfOk result (λ session. session_on self.old.connections conn ≡ Some session) }
    {
        let session = self.cancelling(conn, number)?;
        self.take_out(session, number);
        self.mail(conn, Mail::Withdrawn { number });
        Ok(session)
    }

    /// Removes a connection with its box, and withdraws its session's waiting requests. Returns how many, 0
    /// to `WINDOW`.
    pub fn gone(&mut self, conn: u64) -> u32
        ensures count { result ≡ departing self.old conn }
        ensures dropped { self.new ≡ dropped self.old conn }
    {
        if !self.connections.is_connected(conn) {
            return 0;
        }
        let count = self.depart(conn);
        self.unbox(conn);
        count
    }

    /// Whether a cut hands out a batch: some entries are pending, and no batch is out.
    pub fn has_cut(&self) -> bool
        ensures { result ≡ not (has_no_cut self.now) }
    {
        !(self.out.is_some() || self.service.pending_count() == 0)
    }

    /// Hands out all pending entries as the batch to store, if there are some and no batch is out.
    pub fn cut(&mut self) -> Option<Batch>
        ensures batch { result ≡ next_batch self.old }
        ensures cut { self.new ≡ cut self.old }
    {
        let length = self.service.pending_count();
        if self.out.is_some() || length == 0 {
            return None;
        }
        let spare = self.spare.take().unwrap();
        let first = self.durable;
        self.out = Some(Out { first, length });
        let entries = self.service.take_pending(spare);
        Some(Batch { first, entries })
    }

    /// Takes the batch that is out as stored. Its entries become durable and are mailed to the connections
    /// that have their sessions, and a session that it closes loses its attachment. Any other batch is
    /// refused and handed back: one while no batch is out, or one with another first place or length. Adds to
    /// the set each connection whose box the batch changed: it got a mail, or its box was full and the
    /// connection was removed. A connection that the set doesn't have has its old box.
    pub fn post(&mut self, batch: Batch, changed: &mut ConnectionSet) -> Result<(), StrangeBatch>
        ensures refused { IsErr result ↔ (¬ IsOut self.old.out batch) }
        ensures returned { IfErr result (λ strange. strange.0 ≡ batch) }
        ensures posted { OnOk result (self.new ≡ posted self.old batch) }
        ensures err { OnErr result (self.new ≡ self.old) }
        ensures notes { Notes self.old self.new changed.old changed.new }
        ensures none { OnErr result (changed.new ≡ changed.old) }
    {
        let _ = self.state();
        let is_out = match self.out {
            None => false,
            Some(out) => batch.first == out.first && batch.entries.as_slice().len() == out.length,
        };
        if !is_out {
            return Err(StrangeBatch(batch));
        }
        let Batch { first, mut entries } = batch;
        self.post_all(first, entries.as_slice(), changed);
        self.durable = first + entries.as_slice().len() as u64;
        self.out = None;
        entries.clear();
        self.spare = Some(entries);
        Ok(())
    }

    /// Takes the first mail out of a connection's box. `None` if there is none, or the connection is not
    /// connected.
    pub fn take_mail(&mut self, conn: u64) -> Option<Mail>
        ensures mail { result ≡ slice_get (mails_on self.old.connections conn) 0 }
        ensures taken { self.new ≡ taken self.old conn }
    {
        let mail = self.connections.take(conn);
        if mail.is_some() {
            self.books.mail_taken();
        }
        mail
    }

    /// The connections, with their boxes of mails.
    pub fn connections(&self) -> &Connections
        ensures { result.now ≡ self.now.connections }
    {
        &self.connections
    }

    /// Mails the text of a report to a connection. A connection whose box is full is removed.
    pub fn mail_text(&mut self, conn: u64, text: ReportText)
        ensures { self.new ≡ mailed self.old conn (mails.Report text) }
    {
        self.mail(conn, Mail::Report(text));
    }

    /// Mails a refusal to a connection. The number is that of the call or cancel, the floor or session asked
    /// for, and 0 for a bye or a report. A connection whose box is full is removed.
    pub fn mail_refusal(&mut self, conn: u64, number: u64, refusal: Refusal)
        ensures { self.new ≡ mailed self.old conn (mails.Refused number refusal) }
    {
        self.mail(conn, Mail::Refused { number, refusal });
    }

    /// Whether there is a connection with this number.
    pub fn connected(&self, conn: u64) -> bool
        ensures { result ≡ is_connected self.now conn }
    {
        self.connections.is_connected(conn)
    }

    /// How many entries are durable: stored and posted, or there at the start.
    pub fn durable(&self) -> u64
        ensures { result ≡ self.now.durable }
    {
        self.durable
    }

    /// The state, and what is always true of the front.
    pub fn state(&self) -> &State
        ensures state { result.now ≡ self.now.service.state }
        ensures front { IsFront self.now }
        ensures limits { states.IsWithinLimits self.now.service.state }
    {
        let _ = self.service.attachments().waiting_count();
        let _ = self.service.pending_count();
        self.service.state()
    }

    /// The counts of calls and mails, by outcome.
    pub fn books(&self) -> Books
        ensures books { result ≡ self.now.books }
        ensures balance { Balances result (len self.now.service.waiting) (mails_in self.now.connections) }
    {
        self.books
    }

    /// The array, the index and the operation of a session's request, if it waits under the number.
    pub fn waiting(&self, session: u64, number: u64) -> Option<(u64, u32, Op)>
        ensures { result ≡ option_map (λ w. (w.array, w.index, w.op))
            (get self.now.service.waiting (session, number)) }
    {
        match self.service.attachments().find(session, number) {
            Some(waiter) => Some((waiter.array, waiter.index, waiter.op)),
            None => None,
        }
    }

    /// The state with the sessions' attachments, and the requests that wait.
    pub fn service(&self) -> &Service
        ensures { result.now ≡ self.now.service }
    {
        &self.service
    }

    /// Whether a connection has the session, and it is not closing.
    pub fn attached(&self, session: u64) -> bool
        ensures { result ≡ is_attached self.now session }
    {
        self.service.attachments().holder(session).is_some() && !self.is_closing(session)
    }
}
