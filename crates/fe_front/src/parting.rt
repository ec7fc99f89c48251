//! How a connection loses its session, or goes with its box, and how a mail comes into a box
//! (`docs/model.md`, "The front"). A mail is a reply on its way out; it waits in its connection's box.

ghost use Rattle.std.specs.Prelude.{◌≡◌, Some, None, true};
ghost use Rattle.fe_service.specs.AttachmentsState.{count_of};
ghost use Rattle.fe_mail.specs.Connections.{session_on};
ghost use Rattle.fe_front.specs.Front.{is_connected};
ghost use Rattle.fe_front.specs.Steps.{withdrawn_from, parted, released, freed, departed, departing, unboxed};
ghost use Rattle.fe_front.specs.Steps.{mailed};

use crate::front::Front;
use fe_mail::Mail;

impl Front {
    /// Withdraws a session's waiting requests. Returns how many there were.
    pub(crate) fn withdraw(&mut self, session: u64) -> u32
        ensures count { result ≡ count_of self.old.service.waiting session }
        ensures withdrawn { self.new ≡ withdrawn_from self.old session }
    {
        let count = self.service.withdraw(session);
        self.books.waiters_withdrawn(count);
        count
    }

    /// Takes a connection's session from it.
    pub(crate) fn part(&mut self, conn: u64, session: u64)
        requires has { session_on self.old.connections conn ≡ Some session }
        ensures parted { self.new ≡ parted self.old conn session }
    {
        self.service.set_holder(session, None);
        self.connections.set_session(conn, None);
    }

    /// Takes a connection's session from it, if it has one.
    pub(crate) fn release(&mut self, conn: u64)
        ensures released { self.new ≡ released self.old conn }
    {
        if let Some(session) = self.connections.session_of(conn) {
            self.part(conn, session);
        }
    }

    /// Takes a session from the connection that has it, if one does.
    pub(crate) fn free(&mut self, session: u64)
        ensures freed { self.new ≡ freed self.old session }
    {
        let _ = self.state();
        if let Some(conn) = self.service.attachments().holder(session) {
            self.part(conn, session);
        }
    }

    /// Takes a connection's session from it, if it has one, and withdraws its waiting requests. Returns how
    /// many.
    pub(crate) fn depart(&mut self, conn: u64) -> u32
        ensures count { result ≡ departing self.old conn }
        ensures departed { self.new ≡ departed self.old conn }
    {
        match self.connections.session_of(conn) {
            Some(session) => {
                let count = self.withdraw(session);
                self.part(conn, session);
                count
            }
            None => 0,
        }
    }

    /// Removes a connection that has no session, with its box.
    pub(crate) fn unbox(&mut self, conn: u64)
        requires free { session_on self.old.connections conn ≡ None }
        ensures unboxed { self.new ≡ unboxed self.old conn }
    {
        let mails = self.connections.remove(conn);
        self.books.box_dropped(mails);
    }

    /// Puts a mail into a connection's box. A full box drops its connection; without a connection no mail is
    /// made.
    pub(crate) fn mail(&mut self, conn: u64, mail: Mail)
        ensures mailed { self.new ≡ mailed self.old conn mail }
    {
        if self.connections.is_connected(conn) {
            self.put(conn, mail);
        }
    }

    /// Puts a mail into a box as `mail` does. The connection is connected.
    pub(crate) fn put(&mut self, conn: u64, mail: Mail)
        requires connected { is_connected self.old conn ≡ true }
        ensures mailed { self.new ≡ mailed self.old conn mail }
    {
        match self.connections.put(conn, mail) {
            Ok(()) => self.books.mail_boxed(),
            Err(_) => {
                self.books.mail_refused_by_box();
                let _ = self.gone(conn);
            }
        }
    }
}
