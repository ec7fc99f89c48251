//! What the connections of a server did that have ended: what their seats count, what they sent, their
//! receipts (`docs/model.md`, "The hall").

ghost use Rattle.std.specs.Prelude.{◌≡◌, ◌⊎◌, ◌∷◌, ◌++◌, [], true, false, Some, IsTrue, IfOk, IfErr, map};
ghost use mathlib.Core.List.{IsPrefix};
ghost use Rattle.fe_history.specs.Acts.{AreIssued, EachIssued, IsAccountOf};
ghost use Rattle.fe_hall.specs.Audits.{IsAudit, account_left};
ghost use Rattle.fe_shared.specs.Seats.{Seats as Totals};
ghost use Rattle.fe_server.specs.declared.stop_fault.StopFault.TheVariants as fault;
ghost use Rattle.fe_server.specs.FinishedConnections.{IsSettled, joined_to, lacks};
ghost use Rattle.fe_server.specs.within.Leavings.{AreWhole, transcript_of};
ghost use Rattle.fe_server.specs.Transcripts.{IsTranscript};

use super::finished_sides::FinishedSides;
use super::{ConnectionOutcome, ReadOutcome, WriteOutcome};
use crate::connection::ServedConnection;
use crate::stop_fault::StopFault;
use crate::transcript_log::TranscriptLog;
use fe_hall::{
    Account, Audit, ConnectRight, GatheredReceipts, Hall, StoreSeat, Tally, account_of, settle,
};
use fe_state::State;
use fe_wire::ClientMessage;
use std::alloc::Global;

/// What the connections did that have ended.
#[derive(Drop)]
pub(crate) struct FinishedConnections<C: Tally, M: Tally> {
    /// Memory was short for something that the closing of the hall needs, or the committing thread could not
    /// be started.
    pub(crate) short: bool,
    /// A book of the hall, a count of calls or mails, is full.
    pub(crate) spent: bool,
    /// The seats of their sides, which count calls and mails, the receipts of the write sides, if they are
    /// kept, and the transcripts.
    sides: FinishedSides<C, M>,
    /// If they are kept, of each read side the first 1,024 attaches and calls that it handled.
    sent: Vec<Vec<ClientMessage>>,
}

impl<C: Tally, M: Tally> FinishedConnections<C, M> {
    /// Nothing: no connection has ended. It takes the right to make connections, so a connection that ends
    /// can't put an empty one in its place.
    pub(crate) fn new(
        alloc: Global,
        _right: &ConnectRight,
        receipts: GatheredReceipts<M>,
    ) -> FinishedConnections<C, M> {
        FinishedConnections {
            short: false,
            spent: false,
            sides: FinishedSides::none(receipts),
            sent: Vec::new(alloc),
        }
    }

    /// Adds what the sides of a connection did and saw. What was sent and the receipts are added only if
    /// `keeps`.
    pub(crate) fn add(
        &mut self,
        connection: &ServedConnection,
        outcome: ConnectionOutcome<C, M>,
        keeps: bool,
    )
        requires transcript { IsTranscript connection.now.socket.from.received
            connection.now.socket.to.writer.sent
            connection.now.admission.conn outcome.read.seat outcome.read.sent.items outcome.read.end
            outcome.write.seat outcome.write.receipts.items outcome.write.end }
        requires issued { AreIssued connection.now.admission.conn outcome.write.seat.taken
            outcome.write.receipts.history }
        ensures calls { self.new.sides.calls ≡ joined_to self.old.sides.calls outcome.read.seat.calls }
        ensures mails { self.new.sides.mails ≡ joined_to self.old.sides.mails outcome.write.seat.mails }
        // What has to be kept is kept, or `short` says that memory was short for it.
        ensures sent { IsTrue keeps → self.new.short ≡ false
            → self.new.sent.items ≡ self.old.sent.items ++ outcome.read.sent ∷ [] }
        ensures receipts { IsTrue keeps → self.new.short ≡ false
            → (self.new.sides.receipts.items ≡ self.old.sides.receipts.items ++ outcome.write.receipts.items)
            × (self.new.sides.receipts.whole ≡ self.old.sides.receipts.whole) }
        ensures none { keeps ≡ false → (self.new.sent.items ≡ self.old.sent.items)
            × (self.new.sides.receipts.items ≡ self.old.sides.receipts.items) }
        ensures saw { IsPrefix self.old.sides.receipts.history self.new.sides.receipts.history
            × IsPrefix outcome.write.receipts.history self.new.sides.receipts.history }
        ensures short { IsTrue self.old.short → IsTrue self.new.short }
        // Its transcript is added, whatever is kept.
        ensures transcripts { self.new.sides.transcripts ≡ self.old.sides.transcripts ++ transcript_of
            connection.now.socket.from.received connection.now.socket.to.writer.sent
            connection.now.admission.conn outcome.read.seat outcome.read.sent.items outcome.read.end
            outcome.write.seat outcome.write.receipts.items outcome.write.end ∷ [] }
    {
        let transcripts = self.sides.transcripts().and(connection, &outcome);
        let ConnectionOutcome {
            read,
            write,
            reads: _,
        } = outcome;
        let ReadOutcome {
            seat: call_seat,
            sent,
            end: _,
            parted: _,
        } = read;
        let WriteOutcome {
            seat: mail_seat,
            receipts,
            end: _,
            parted: _,
        } = write;
        let added = self
            .sides
            .add(transcripts, call_seat, mail_seat, receipts, keeps);
        if added.is_err() {
            self.short = true;
        }
        if !keeps {
            return;
        }
        if self.sent.push(sent).is_err() {
            self.short = true;
        }
    }

    /// The transcripts of the connections.
    pub(crate) fn transcripts(&self) -> TranscriptLog
        ensures same { result ≡ self.now.sides.transcripts }
        ensures whole { AreWhole self.now.sides.calls self.now.sides.mails self.now.sides.receipts.history
            result }
    {
        self.sides.transcripts()
    }

    /// The account of a hall that is not closed.
    // (It is not inlined: LLVM takes minutes over a function that moves large values several times and also
    // reaches into them.)
    #[inline(never)]
    pub(crate) fn account(self, hall: Hall<C, M>, seat: StoreSeat<M>) -> Account
        ensures leaves { IsAccountOf seat self.sides.receipts.items self.sides.receipts.history result }
        ensures issued { EachIssued result.receipts result.history }
    {
        let FinishedConnections { sides, .. } = self;
        let (_, _, receipts, history) = sides.into_parts();
        account_of(hall, seat, receipts, history)
    }

    /// Whether the closing lacks something: memory was short, or receipts are to be kept and are not whole.
    fn lacks(&self, keeps: bool) -> bool
        ensures { result ≡ lacks self.now.short keeps self.now.sides.receipts.whole }
    {
        self.short || keeps && !self.sides.is_whole()
    }

    /// Closes a hall with what its connections did. `state` is what is stored. `Memory` if memory was short
    /// for some of that, or the committing thread could not be started; `Strange` if a book is full, a seat
    /// is missing or a receipt is strange.
    // (It is not inlined, for the reason that `account` gives.)
    #[inline(never)]
    pub(crate) fn close(
        self,
        hall: Hall<C, M>,
        seat: StoreSeat<M>,
        state: &State,
        keeps: bool,
    ) -> Result<Audit, (StopFault, Account)>
        // Its books are those of all seats, and its lists are these.
        ensures audit { IfOk result (λ audit. (calls : Totals) × (mails : Totals)
            × ((self.sides.calls ≡ Some calls) × (self.sides.mails ≡ Some mails) × (self.spent ≡ false))
            × IsAudit calls mails (map (λ v. v.items) self.sent.items) self.sides.receipts.whole audit) }
        ensures settled { IfOk result (IsSettled keeps state.now) }
        ensures leaves { IsAccountOf seat self.sides.receipts.items self.sides.receipts.history
            (account_left result) }
        ensures issued { EachIssued (account_left result).receipts (account_left result).history }
        ensures faults { IfErr result
            (λ e. ((e.0 ≡ fault.Memory) × (lacks self.short keeps self.sides.receipts.whole ≡ true))
            ⊎ ((e.0 ≡ fault.Strange) × (lacks self.short keeps self.sides.receipts.whole ≡ false))) }
    {
        if self.lacks(keeps) {
            return Err((StopFault::Memory, self.account(hall, seat)));
        }
        if self.spent {
            return Err((StopFault::Strange, self.account(hall, seat)));
        }
        let FinishedConnections { sides, sent, .. } = self;
        let (calls, mails, receipts, history) = sides.into_parts();
        let (Some(calls), Some(mails)) = (calls, mails) else {
            drop(sent);
            return Err((
                StopFault::Strange,
                account_of(hall, seat, receipts, history),
            ));
        };
        match settle(hall, calls, mails, sent, receipts, history, seat, state) {
            Ok(audit) => Ok(audit),
            Err((_, account)) => Err((StopFault::Strange, account)),
        }
    }
}
