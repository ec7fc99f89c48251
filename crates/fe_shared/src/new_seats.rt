//! A seat records what one side of a connection, its reading or its writing thread, did in the hall
//! (`docs/model.md`, "The hall").

ghost use Rattle.std.specs.Prelude.{◌≡◌};
ghost use Rattle.fe_shared.specs.Seats.{first_call_seat, first_mail_seat, IsNewPart};

use crate::call_seat::CallSeat;
use crate::mail_seat::MailSeat;
use fe_history::Tally;
use std::marker::Model;
use std::sync::ledger::Share;

/// The seats of a new connection, whose two sides have not begun. Contracts see the connection's number.
#[derive(Drop)]
pub struct NewSeats<C: Tally, M: Tally> {
    calls: Share<C>,
    mails: Share<M>,
    conn: u64,
}

impl<C: Tally, M: Tally> Model for NewSeats<C, M> {
    ghost use Rattle.std.specs.Prelude.{◌≡◌, ℕ};
    ghost use Rattle.fe_shared.specs.Seats.{IsNewPart};

    ghost Value = { ℕ };

    ghost view = { λ s. s.conn };

    ghost invariant = { λ s. IsNewPart C.all C.parts s.calls.parts s.calls.amount
        × IsNewPart M.all M.parts s.mails.parts s.mails.amount };
}

impl<C: Tally, M: Tally> NewSeats<C, M> {
    /// The seats of a new connection: one part of each ledger.
    pub(crate) fn new(calls: Share<C>, mails: Share<M>, conn: u64) -> NewSeats<C, M>
        requires calls { IsNewPart C.all C.parts calls.parts calls.amount }
        requires mails { IsNewPart M.all M.parts mails.parts mails.amount }
        ensures { result ≡ conn }
    {
        NewSeats { calls, mails, conn }
    }

    /// The seats of its two sides, which begin now.
    pub fn begin(self) -> (CallSeat<C>, MailSeat<M>)
        ensures calls { result.0 ≡ first_call_seat self }
        ensures mails { result.1 ≡ first_mail_seat self }
    {
        let NewSeats { calls, mails, conn } = self;
        (CallSeat::new(calls, conn), MailSeat::new(mails, conn))
    }
}
