//! The seat of a connection's write side (`docs/model.md`, "The hall"). A box has the mails of a connection
//! that wait to go out.

ghost use Rattle.std.specs.Prelude.{◌≡◌, ◌+◌, true};
ghost use Rattle.fe_shared.specs.Seats.{first_mail_seat, mail_taken, IsNewPart, one_seat};

use crate::free::Free;
use crate::last_answer::LastAnswer;
use crate::mail_log::MailLog;
use crate::seats::Seats;
use fe_front::Mail;
use fe_history::Tally;
use std::marker::Model;
use std::snapshot::Snapshot;
use std::sync::ledger::{Book, Share};

/// The seat of a connection's write side, the thread that writes. Contracts see the connection's number, and
/// what the side did.
///
/// Only the hall changes it, and only in a hold of the lock, since each change needs the book, which is under
/// the lock.
#[derive(Drop)]
pub struct MailSeat<M: Tally> {
    share: Share<M>,
    conn: u64,
    taken: MailLog,
    /// Whether more mails were in the box when the last one was taken; false if none was.
    more: bool,
    last_answer: LastAnswer,
    /// Whether the side removed its connection.
    departed: bool,
}

impl<M: Tally> Model for MailSeat<M> {
    ghost use Rattle.std.specs.Prelude.{◌≡◌, ◌+◌};
    ghost use Rattle.fe_shared.specs.Logs.{mails_of};
    ghost use Rattle.fe_shared.specs.Seats.{MailSeatState, IsWholeLedger};

    ghost Value = { MailSeatState };

    ghost view = { λ s. record {
      conn = s.conn;
      mails = s.share.amount;
      taken = mails_of s.taken;
      more = s.more;
      last_answer = s.last_answer;
      departed = s.departed;
    } };

    ghost invariant = { λ s. (s.share.parts ≡ 1) × IsWholeLedger M.all M.parts };
}

impl<M: Tally> MailSeat<M> {
    /// The seat of a connection just made: one part of the ledger.
    pub(crate) fn new(share: Share<M>, conn: u64) -> MailSeat<M>
        requires { IsNewPart M.all M.parts share.parts share.amount }
        ensures { result ≡ first_mail_seat conn }
    {
        MailSeat {
            share,
            conn,
            taken: MailLog::Empty,
            more: false,
            last_answer: LastAnswer::Served,
            departed: false,
        }
    }

    /// The seat of a side that begins, and what shows that its thread does not hold the lock.
    pub fn begin_side(self) -> (MailSeat<M>, Free)
        ensures { result.0 ≡ self }
    {
        (self, Free::of_side())
    }

    /// The connection's number.
    pub fn conn(&self) -> u64
        ensures { result ≡ self.now.conn }
    {
        self.conn
    }

    /// Whether more mails were in the box when the last one was taken; false if none was.
    pub fn more(&self) -> bool
        ensures { result ≡ self.now.more }
    {
        self.more
    }

    /// Notes that a mail was taken. It is counted here and in the book, and the side's last answer is
    /// `Served`. `more` says whether others are in the box.
    pub(crate) fn take(&mut self, book: &mut Book<M>, mail: &Mail, more: bool)
        ensures seat { self.new ≡ mail_taken self.old mail.now more }
        ensures book { book.new.total ≡ book.old.total + 1 }
    {
        book.add(&mut self.share, 1);
        let before = Snapshot::of(&self.taken);
        self.taken = MailLog::Then(before, Snapshot::of(mail));
        self.more = more;
        self.last_answer = LastAnswer::Served;
    }

    /// Records what the hall answered the side last.
    pub(crate) fn set_last_answer(&mut self, _book: &Book<M>, last_answer: LastAnswer)
        ensures { self.new ≡ record self.old { last_answer = last_answer } }
    {
        self.last_answer = last_answer;
    }

    /// Notes that the side removes its connection.
    pub(crate) fn depart(&mut self, _book: &Book<M>)
        ensures { self.new ≡ record self.old { departed = true } }
    {
        self.departed = true;
    }

    /// The seat, as the seats of one connection, to which others can be added.
    pub fn into_seats(self) -> Seats<M>
        ensures { result ≡ one_seat self.mails }
    {
        let MailSeat { share, .. } = self;
        Seats::of(share)
    }
}
