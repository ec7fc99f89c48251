//! What the sides of connections left that have ended: their seats, their receipts, and for clauses alone
//! their transcripts (`docs/model.md`, "The hall").

ghost use Rattle.std.specs.Prelude.{◌≡◌, ◌++◌, [], None, false, IsTrue, OnOk};
ghost use Rattle.fe_history.specs.Acts.{EachIssued, GoesOnFrom};
ghost use Rattle.fe_shared.specs.Seats.{one_seat};
ghost use Rattle.fe_server.specs.FinishedConnections.{joined_to};
ghost use Rattle.fe_server.specs.within.Leavings.{AreWhole, ComesAfter};

use crate::transcript_log::TranscriptLog;
use fe_hall::{CallSeat, GatheredReceipts, History, MailSeat, ReceiptList, Receipts, Seats, Tally};
use fe_memory::OutOfMemory;
use std::marker::Model;

/// What the sides of connections left that have ended.
#[derive(Drop)]
pub(crate) struct FinishedSides<C: Tally, M: Tally> {
    /// Their seats, which count calls and mails.
    calls: Option<Seats<C>>,
    mails: Option<Seats<M>>,
    /// The receipts of the write sides, if they are kept.
    receipts: GatheredReceipts<M>,
    transcripts: TranscriptLog,
}

impl<C: Tally, M: Tally> Model for FinishedSides<C, M> {
    ghost use Rattle.std.specs.Coded.{codes};
    ghost use Rattle.fe_history.specs.contracts.act.Act as acts;
    ghost use Rattle.fe_server.specs.within.Leavings.{AreWhole, Leavings};

    ghost Value = { Leavings };

    ghost coded = { Prim.hlevel (codes, acts.the_row.coded) };

    ghost view = { λ f. record {
      calls = f.calls;
      mails = f.mails;
      receipts = f.receipts;
      transcripts = f.transcripts;
    } };

    ghost invariant = { λ f. AreWhole f.calls f.mails f.receipts.history f.transcripts };
}

impl<C: Tally, M: Tally> FinishedSides<C, M> {
    /// No connection has ended.
    pub(super) fn none(receipts: GatheredReceipts<M>) -> FinishedSides<C, M>
        ensures { result ≡ record { calls = None; mails = None; receipts = receipts; transcripts = [] } }
    {
        FinishedSides {
            calls: None,
            mails: None,
            receipts,
            transcripts: TranscriptLog::none(),
        }
    }

    /// Adds what the sides of a connection did. `transcripts` are those so far and its own. Its receipts are
    /// kept only if `keeps`. Fails if memory is short for them.
    pub(super) fn add(
        &mut self,
        transcripts: TranscriptLog,
        calls: CallSeat<C>,
        mails: MailSeat<M>,
        receipts: Receipts<M>,
        keeps: bool,
    ) -> Result<(), OutOfMemory>
        requires { ComesAfter self.old.transcripts calls mails receipts.history transcripts }
        ensures calls { self.new.calls ≡ joined_to self.old.calls calls.calls }
        ensures mails { self.new.mails ≡ joined_to self.old.mails mails.mails }
        ensures transcripts { self.new.transcripts ≡ transcripts }
        ensures kept { IsTrue keeps → OnOk result
            ((self.new.receipts.items ≡ self.old.receipts.items ++ receipts.items)
            × (self.new.receipts.whole ≡ self.old.receipts.whole)) }
        ensures none { keeps ≡ false → self.new.receipts.items ≡ self.old.receipts.items }
        ensures history { GoesOnFrom self.old.receipts.history receipts.history self.new.receipts.history }
    {
        join_to(&mut self.calls, calls.into_seats());
        join_to(&mut self.mails, mails.into_seats());
        self.transcripts = transcripts;
        if !keeps {
            self.receipts.learn(receipts);
            return Ok(());
        }
        self.receipts.add(receipts)?;
        Ok(())
    }

    /// The transcripts of the connections.
    pub(super) fn transcripts(&self) -> TranscriptLog
        ensures same { result ≡ self.now.transcripts }
        ensures whole { AreWhole self.now.calls self.now.mails self.now.receipts.history result }
    {
        self.transcripts.again()
    }

    /// Whether the receipts are those of each write side.
    pub(super) fn is_whole(&self) -> bool
        ensures { result ≡ self.now.receipts.whole }
    {
        self.receipts.list().is_whole()
    }

    /// The seats of both sides, the receipts, and a history in which their answers were issued.
    pub(super) fn into_parts(self) -> (Option<Seats<C>>, Option<Seats<M>>, ReceiptList, History<M>)
        ensures calls { result.0 ≡ self.calls }
        ensures mails { result.1 ≡ self.mails }
        ensures items { result.2.items ≡ self.receipts.items }
        ensures whole { result.2.whole ≡ self.receipts.whole }
        ensures history { result.3 ≡ self.receipts.history }
        ensures issued { EachIssued result.2.items result.3 }
    {
        let FinishedSides {
            calls,
            mails,
            receipts,
            transcripts,
        } = self;
        drop(transcripts);
        let (list, history) = receipts.into_parts();
        (calls, mails, list, history)
    }
}

/// Adds the seat of one more connection to those of others, if there are any.
fn join_to<L: Tally>(all: &mut Option<Seats<L>>, seat: Seats<L>)
    requires { seat ≡ one_seat seat.amount }
    ensures { all.new ≡ joined_to all.old seat.amount }
{
    match all {
        Some(others) => others.add(seat),
        None => *all = Some(seat),
    }
}
