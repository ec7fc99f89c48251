//! The connections of a server (`docs/model.md`, "Mails, connections and books").

ghost use Rattle.std.specs.Prelude.{◌≡◌, ◌↔◌, ◌<◌, ◌≤◌, [], ◌∷◌, ◌++◌, length, nat_lt, drop, slice_get};
ghost use Rattle.std.specs.Prelude.{is_some, None, IfErr, IfNone, OnOk, OnErr, IsOk, IsSome};
ghost use Rattle.std.specs.FinMap as map;
ghost use Rattle.fe_mail.specs.Connections.{first_connection, session_on, mails_on, with_session, with_mails};
ghost use Rattle.fe_mail.specs.Limits.{most_mails_in_box};

use crate::connection::Connection;
use crate::mail::Mail;
use crate::mailbox::Mailbox;
use fe_memory::OutOfMemory;
use indexmap::IndexMap;
use std::alloc::Global;
use std::marker::Model;

/// The connections by number: the session of each, and the box in which its mails wait.
///
/// Connections are in a hash map. `connect` allocates a box with room for `MAILS` mails, the most in a box,
/// and may let the map grow; nothing else allocates.
pub struct Connections {
    connections: IndexMap<u64, Connection>,
    alloc: Global,
}

impl Drop for Connections {
    fn drop(self) {
        let Connections {
            connections,
            alloc: _,
        } = self;
        drop(connections);
    }
}

impl Model for Connections {
    ghost use Rattle.std.specs.FinMap.{FinMap, code, from_entries};
    ghost use Rattle.std.specs.Ordering.{nat_cmp};
    ghost use Rattle.std.specs.Coded.{coded_ℕ};
    ghost use Rattle.fe_mail.specs.declared.connection.Connection as declared;
    ghost use Rattle.fe_mail.specs.contracts.connection.Connection.{the_row};

    ghost Value = { FinMap nat_cmp declared.Connection };

    ghost coded = { code coded_ℕ the_row.coded };

    ghost view = { λ a. from_entries a.connections.entries };
}

impl Connections {
    /// No connections.
    pub fn new(alloc: Global) -> Connections
        ensures { result ≡ map.empty }
    {
        Connections {
            connections: IndexMap::new(alloc),
            alloc,
        }
    }

    /// Adds a connection with no session and an empty box. Fails only if memory runs out.
    pub fn connect(&mut self, conn: u64) -> Result<(), OutOfMemory>
        requires unconnected { map.get self.old conn ≡ None }
        ensures connected { OnOk result (self.new ≡ map.insert self.old conn first_connection) }
        ensures err { OnErr result (self.new ≡ self.old) }
    {
        let mails = Mailbox::new(self.alloc)?;
        let connection = Connection {
            session: None,
            mails,
        };
        self.connections.insert(conn, connection)?;
        Ok(())
    }

    /// Whether there is a connection with this number.
    pub fn is_connected(&self, conn: u64) -> bool
        ensures { result ≡ is_some (map.get self.now conn) }
    {
        self.connections.contains_key(&conn)
    }

    /// The session of a connection, or `None` if it has none or is not connected.
    pub fn session_of(&self, conn: u64) -> Option<u64>
        ensures { result ≡ session_on self.now conn }
    {
        match self.connections.get(&conn) {
            Some(connection) => connection.session,
            None => None,
        }
    }

    /// Whether a connection's box has a mail; `false` if it is not connected.
    pub fn has_mail(&self, conn: u64) -> bool
        ensures { result ≡ nat_lt 0 (length (mails_on self.now conn)) }
    {
        match self.connections.get(&conn) {
            Some(connection) => connection.mails.len() > 0,
            None => false,
        }
    }

    /// Gives a connection another session, or none.
    pub fn set_session(&mut self, conn: u64, session: Option<u64>)
        requires connected { IsSome (map.get self.old conn) }
        ensures { self.new ≡ with_session self.old conn session }
    {
        let connection = self.connections.get_mut(&conn).unwrap();
        connection.session = session;
    }

    /// Appends a mail to a connection's box. If the box has `MAILS` mails, returns the mail as the error.
    pub fn put(&mut self, conn: u64, mail: Mail) -> Result<(), Mail>
        requires connected { IsSome (map.get self.old conn) }
        ensures room { IsOk result ↔ (length (mails_on self.old conn) < most_mails_in_box) }
        ensures put { OnOk result (self.new ≡ with_mails self.old conn
            (mails_on self.old conn ++ mail ∷ [])) }
        ensures full { OnErr result (length (mails_on self.old conn) ≡ most_mails_in_box) }
        ensures returned { IfErr result (λ back. back ≡ mail) }
        ensures err { OnErr result (self.new ≡ self.old) }
    {
        let connection = self.connections.get_mut(&conn).unwrap();
        connection.mails.put(mail)
    }

    /// Removes the oldest mail of a connection's box, or returns `None` if there is none or it is not
    /// connected.
    pub fn take(&mut self, conn: u64) -> Option<Mail>
        ensures mail { result ≡ slice_get (mails_on self.old conn) 0 }
        ensures taken { self.new ≡ with_mails self.old conn (drop 1 (mails_on self.old conn)) }
        ensures none { IfNone result (self.new ≡ self.old) }
    {
        match self.connections.get_mut(&conn) {
            Some(connection) => connection.mails.take(),
            None => None,
        }
    }

    /// Removes a connection and its box, and returns the number of mails in the box, 0 to `MAILS`. Returns 0
    /// if it is not connected.
    pub fn remove(&mut self, conn: u64) -> u32
        ensures mails { result ≡ length (mails_on self.old conn) }
        ensures few { result ≤ most_mails_in_box }
        ensures removed { self.new ≡ map.remove self.old conn }
    {
        match self.connections.swap_remove(&conn) {
            Some(connection) => connection.mails.len(),
            None => 0,
        }
    }
}
