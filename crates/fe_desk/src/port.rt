//! The server's end of the connections of one number, a client in the model: what is read from them, and what
//! is written to them (`docs/model.md`, "The desk"). A mail is a reply on its way out; it waits in its
//! connection's box.

ghost use Rattle.std.specs.Prelude.{◌≡◌, ◌≢◌, ℕ, [], nat_lt, length, ◌++◌, None, Some, true, false, IsTrue};
ghost use Rattle.std.specs.Prelude.{OnOk, OnErr, IfOk, slice_get};
ghost use Rattle.std.specs.Option.{option_map_or};
ghost use Rattle.fe_mail.specs.Connections.{mails_on};
ghost use Rattle.fe_front.specs.Posting.{may_have};
ghost use Rattle.fe_front.specs.Steps.{taken};
ghost use Rattle.fe_wire.specs.Spelling.{reply_spelling};
ghost use Rattle.fe_wire.specs.Stream.{CompletesMessage};
ghost use Rattle.fe_desk.specs.DeskRunState.{emptied_box, written_out};
ghost use Rattle.fe_desk.specs.Steps.{BeginsStream, Reads, new_client};
ghost use Rattle.fe_desk.specs.Ends.{StopsWriting};
ghost use Rattle.fe_desk.specs.within.Desk.{HasAllWithMail, client_of, KeepsFront};

use crate::written::Written;
use fe_front::{ConnectionSet, Front};
use fe_mail::Mail;
use fe_memory::OutOfMemory;
use fe_messages::Reply;
use fe_wire::{ClientMessage, Decoder, Version};
use std::alloc::Global;
use std::mem;

/// A connection number, and what was written to its connections.
#[derive(Drop)]
pub struct Port {
    pub conn: u64,
    /// The frames of its mails that were written, in order. If the number was connected again, they follow
    /// the earlier ones.
    pub written: Written,
    pub(crate) decoder: Decoder,
    /// Messages that came whole. Those before `next` are taken, and the others are left.
    pub(crate) left: Vec<ClientMessage>,
    pub(crate) next: usize,
    /// The reply of a mail that was taken out of its box and is not written.
    pub(crate) reply: Option<Reply>,
}

impl Port {
    /// The port of a number that comes for the first time.
    pub(crate) fn new(alloc: Global, conn: u64) -> Port
        ensures client { client_of result ≡ new_client conn result.decoder }
        ensures begins { BeginsStream result.decoder }
    {
        Port {
            conn,
            written: Written::new(alloc),
            decoder: Decoder::with_version(Version::Two),
            left: Vec::new(alloc),
            next: 0,
            reply: None,
        }
    }

    /// Begins the stream anew, for another connection of the number.
    pub(crate) fn restart(&mut self)
        ensures client { client_of self.new ≡ record (client_of self.old)
            { decoder = self.new.decoder; left = [] } }
        ensures begins { BeginsStream self.new.decoder }
    {
        self.decoder = Decoder::with_version(Version::Two);
        self.forget();
    }

    /// The messages that are left are dropped.
    pub(crate) fn forget(&mut self)
        ensures { client_of self.new ≡ record (client_of self.old) { left = [] } }
    {
        self.left.clear();
        self.next = 0;
    }

    /// Whether messages are left.
    pub(crate) fn has_left(&self) -> bool
        ensures { result ≡ nat_lt 0 (length (client_of self.now).left) }
    {
        self.next < self.left.len()
    }

    /// Reads the next piece of the stream. No message may be left. Returns whether the stream is then at a
    /// bad frame, one that is no message. Fails only if memory runs out, and then nothing is read.
    pub(crate) fn feed(&mut self, alloc: Global, piece: &[u8]) -> Result<bool, OutOfMemory>
        requires { (client_of self.old).left ≡ [] }
        ensures reads { OnOk result (Reads self.old.decoder self.new.decoder piece.now
            (client_of self.new).left) }
        ensures client { OnOk result (client_of self.new
            ≡ record (client_of self.old) { decoder = self.new.decoder; left = (client_of self.new).left }) }
        ensures bad { IfOk result (λ bad. bad ≡ self.new.decoder.is_bad) }
        ensures err { OnErr result (client_of self.new ≡ client_of self.old) }
        ensures memory { OnErr result (CompletesMessage self.old.decoder piece.now) }
    {
        let fed = self.decoder.feed(alloc, piece)?;
        let bad = fed.fault.is_some();
        self.left = fed.messages;
        self.next = 0;
        Ok(bad)
    }

    /// Whether something may have to be written to the connection: a reply that waits, or a mail. Each
    /// connection with a mail is in the set.
    fn may_owe(&self, mailed: &ConnectionSet) -> bool
        ensures { result ≡ false
            → ((client_of self.now).reply ≡ None) × (¬ IsTrue (may_have mailed.now self.now.conn)) }
    {
        self.reply.is_some() || mailed.may_have(self.conn)
    }

    /// Writes the reply that waits, and all mails of the connection. If memory is short, what is not written
    /// stays.
    pub(crate) fn take_mails(
        &mut self,
        front: &mut Front,
        mailed: &ConnectionSet,
    ) -> Result<(), OutOfMemory>
        requires { HasAllWithMail front.old mailed.now }
        ensures written_out { OnOk result (client_of self.new ≡ written_out front.old (client_of self.old)) }
        ensures emptied { OnOk result (front.new ≡ emptied_box front.old self.old.conn) }
        ensures stops { OnErr result (StopsWriting front.old (client_of self.old) front.new
            (client_of self.new)) }
        ensures front { KeepsFront front.old front.new }
    {
        if !self.may_owe(mailed) {
            return Ok(());
        }
        self.write_waiting()?;
        while let Some(mail) = next_mail(front, self.conn) {
            self.write(Reply::of(mail))?;
        }
        Ok(())
    }

    /// Writes the reply that waits, if one does.
    fn write_waiting(&mut self) -> Result<(), OutOfMemory>
        ensures written { OnOk result (client_of self.new
            ≡ record (client_of self.old) {
              reply = None;
              written = self.old.written ++ option_map_or reply_spelling self.old.reply [];
            }) }
        ensures err { OnErr result (client_of self.new ≡ client_of self.old) }
        ensures waits { OnErr result (self.new.reply ≢ None) }
    {
        if self.reply.is_none() {
            return Ok(());
        }
        match mem::take(&mut self.reply) {
            Some(reply) => self.write(reply),
            None => Ok(()),
        }
    }

    /// Writes a reply, or keeps it if there is no memory.
    fn write(&mut self, reply: Reply) -> Result<(), OutOfMemory>
        ensures written { OnOk result (client_of self.new
            ≡ record (client_of self.old) { written = self.old.written ++ reply_spelling reply }) }
        ensures err { OnErr result (client_of self.new ≡ record (client_of self.old) { reply = Some reply }) }
    {
        let outcome = self.written.put(&reply);
        if outcome.is_err() {
            self.reply = Some(reply);
        }
        outcome
    }
}

/// The next mail of a connection, if there is one. If the books show that no box has a mail, none is looked
/// for.
fn next_mail(front: &mut Front, conn: u64) -> Option<Mail>
    ensures mail { result ≡ slice_get (mails_on front.old.connections conn) 0 }
    ensures taken { front.new ≡ taken front.old conn }
{
    if has_no_mail(front) {
        return None;
    }
    front.take_mail(conn)
}

/// Whether the books, the counts of calls and mails, show that no box has a mail. Books whose counts are used
/// up (spent) show nothing.
pub(crate) fn has_no_mail(front: &Front) -> bool
    ensures { result ≡ true → (conn : ℕ) → mails_on front.now.connections conn ≡ [] }
{
    let books = front.books();
    !books.spent && books.left == 0
}
