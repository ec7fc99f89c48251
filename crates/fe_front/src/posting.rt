//! Posting a batch that was stored: each entry's mail, the reply for it, goes to the connection that has its
//! session (`docs/model.md`, "The front"; attachments: "Waiting requests").

ghost use Rattle.std.specs.Prelude.{◌≡◌, ◌+◌, ◌^◌, ◌<◌, length};
ghost use Rattle.fe_front.specs.Posting.{ended, posted_entry, posted_all, Notes};

use crate::connection_set::ConnectionSet;
use crate::front::Front;
use fe_mail::{Mail, session_of};
use fe_state::Entry;

impl Front {
    /// Takes a session from the connection that has it, if one does, and removes its attachment if it is
    /// closing: its close was made, and is posted here.
    fn end(&mut self, session: u64)
        ensures ended { self.new ≡ ended self.old session }
    {
        self.free(session);
        if self.is_closing(session) {
            self.service.leave(session);
        }
    }

    /// Mails an entry to the connection that has its session, if one does, and adds the connection to the
    /// set. A session that the entry closes ends.
    fn post_entry(&mut self, entry: &Entry, place: u64, changed: &mut ConnectionSet)
        ensures posted { self.new ≡ posted_entry self.old entry.now place }
        ensures notes { Notes self.old self.new changed.old changed.new }
    {
        let _ = self.state();
        if let Some(conn) = self.service.attachments().holder(session_of(entry)) {
            changed.add(conn);
            self.put(conn, Mail::of(entry, place));
        }
        if let Entry::Closed { session } = *entry {
            self.end(session);
        }
    }

    /// Posts entries in order. The first one is at the place `first`.
    pub(crate) fn post_all(&mut self, first: u64, entries: &[Entry], changed: &mut ConnectionSet)
        requires places { first + length entries.now < 2 ^ 64 }
        ensures posted { self.new ≡ posted_all self.old entries.now first }
        ensures notes { Notes self.old self.new changed.old changed.new }
    {
        for k in 0..entries.len() {
            self.post_entry(&entries[k], first + k as u64, changed);
        }
    }
}
