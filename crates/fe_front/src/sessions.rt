//! Which session an event of a connection is for, and why the event is refused (`docs/model.md`, "The
//! front"). A session's floor is the least number of its window.

ghost use Rattle.std.specs.Prelude.{◌≡◌, None, IsTrue, IsSome};
ghost use Rattle.std.specs.FinMap.{get};
ghost use Rattle.fe_front.specs.Front.{is_connected, is_spent};
ghost use Rattle.fe_front.specs.Call.{own, unclosing, attaching, settling, leaving, cancelling, may_settle};
ghost use Rattle.fe_front.specs.Call.{unspent, waits_below};
ghost use Rattle.fe_front.specs.Steps.{joined, cancelled_from};
ghost use Rattle.fe_mail.specs.Connections.{session_on};
ghost use Rattle.fe_service.specs.AttachmentsState.{holder_of, is_closing};
ghost use Rattle.fe_service.specs.Events.{floor_of, MayAttach};

use crate::front::Front;
use fe_mail::Refusal;
use fe_state::{EVENT_ENTRIES, GREATEST_FLOOR, GREATEST_PLACE, SESSIONS, WINDOW};

impl Front {
    /// Whether the history has fewer places left than one event may need.
    pub(crate) fn is_spent(&self) -> bool
        ensures { result ≡ is_spent self.now }
    {
        self.service.state().place() + EVENT_ENTRIES as u64 > GREATEST_PLACE
    }

    /// Whether a session's close is made and not yet posted.
    pub(crate) fn is_closing(&self, session: u64) -> bool
        ensures { result ≡ is_closing self.now.service.attachments session }
    {
        match self.service.attachments().attachment(session) {
            Some(attachment) => attachment.closing,
            None => false,
        }
    }

    /// The session of a connection, or why an event of it is refused.
    pub(crate) fn own(&self, conn: u64) -> Result<u64, Refusal>
        ensures { result ≡ own self.now conn }
    {
        match self.connections.session_of(conn) {
            None => Err(Refusal::NotAttached),
            Some(session) => self.unclosing(session),
        }
    }

    /// The session, unless it is closing.
    pub(crate) fn unclosing(&self, session: u64) -> Result<u64, Refusal>
        ensures { result ≡ unclosing self.now session }
    {
        if self.is_closing(session) {
            Err(Refusal::Closing)
        } else {
            Ok(session)
        }
    }

    /// The floor of a session, the least number of its window; 1 if the session does not exist.
    pub(crate) fn floor(&self, session: u64) -> u64
        ensures { result ≡ floor_of self.now.service session }
    {
        match self.service.state().floor(session) {
            Some(floor) => floor,
            None => 1,
        }
    }

    /// The session, if the history has places for the entries of one event.
    fn unspent(&self, session: u64) -> Result<u64, Refusal>
        ensures { result ≡ unspent self.now session }
    {
        if self.is_spent() {
            Err(Refusal::Spent)
        } else {
            Ok(session)
        }
    }

    /// The session, if the connection may attach it, or why it may not.
    pub(crate) fn attaching(&self, conn: u64, session: u64) -> Result<u64, Refusal>
        ensures { result ≡ attaching self.now conn session }
    {
        let attachments = self.service.attachments();
        if !self.connections.is_connected(conn) {
            Err(Refusal::NotAttached)
        } else if self.is_closing(session) {
            Err(Refusal::Closing)
        } else if attachments.attachment(session).is_none()
            && attachments.attachment_count() >= SESSIONS
        {
            Err(Refusal::SessionLimit)
        } else {
            self.unspent(session)
        }
    }

    /// Gives a session that no connection has to a connection that has none.
    pub(crate) fn join(&mut self, conn: u64, session: u64)
        requires free_connection { session_on self.old.connections conn ≡ None }
        requires connected { IsTrue (is_connected self.old conn) }
        requires free_session { holder_of self.old.service.attachments session ≡ None }
        requires may { MayAttach self.old.service session }
        ensures joined { self.new ≡ joined self.old conn session }
    {
        self.service.attach(session, conn);
        self.connections.set_session(conn, Some(session));
    }

    /// Whether a request of the session waits under a number below this floor.
    fn waits_below(&self, session: u64, floor: u64) -> bool
        ensures { result ≡ waits_below self.now.service.waiting session floor }
    {
        let _ = self.state();
        for number in self.floor(session)..floor {
            if self.waiting(session, number).is_some() {
                return true;
            }
        }
        false
    }

    /// The session, if its floor may be set to this one, or why it may not.
    fn may_settle(&self, session: u64, floor: u64) -> Result<u64, Refusal>
        ensures { result ≡ may_settle self.now floor session }
    {
        let _ = self.state();
        let old = self.floor(session);
        if floor < old {
            Err(Refusal::BelowFloor)
        } else if floor - old > WINDOW || floor > GREATEST_FLOOR {
            Err(Refusal::BeyondWindow)
        } else if self.waits_below(session, floor) {
            Err(Refusal::StillWaiting)
        } else {
            self.unspent(session)
        }
    }

    /// The session of a connection, if the connection may set its floor to this one, or why it may not.
    pub(crate) fn settling(&self, conn: u64, floor: u64) -> Result<u64, Refusal>
        ensures { result ≡ settling self.now conn floor }
    {
        match self.own(conn) {
            Ok(session) => self.may_settle(session, floor),
            Err(refusal) => Err(refusal),
        }
    }

    /// The session of a connection, if the connection may close it, or why it may not.
    pub(crate) fn leaving(&self, conn: u64) -> Result<u64, Refusal>
        ensures { result ≡ leaving self.now conn }
    {
        match self.own(conn) {
            Ok(session) => self.unspent(session),
            Err(refusal) => Err(refusal),
        }
    }

    /// The session of a connection, if its request waits under the number, or why none can be withdrawn.
    pub(crate) fn cancelling(&self, conn: u64, number: u64) -> Result<u64, Refusal>
        ensures { result ≡ cancelling self.now conn number }
    {
        match self.own(conn) {
            Ok(session) => {
                if self.service.attachments().find(session, number).is_some() {
                    Ok(session)
                } else {
                    Err(Refusal::NotWaiting)
                }
            }
            Err(refusal) => Err(refusal),
        }
    }

    /// Removes a waiting request.
    pub(crate) fn take_out(&mut self, session: u64, number: u64)
        requires waits { IsSome (get self.old.service.waiting (session, number)) }
        ensures cancelled { self.new ≡ cancelled_from self.old session number }
    {
        let _ = self.service.cancel(session, number);
        self.books.waiters_withdrawn(1);
    }
}
