//! How what is under the hall's lock cuts batches, and posts those that were stored (`ARCHITECTURE.md`,
//! "Threads"). A batch that was cut and not posted is out. Each cut is noted in the hall's history
//! (`docs/headline.md`, "Every acknowledged answer").

ghost use Rattle.std.specs.Prelude.{◌≡◌, ◌+◌, ℕ, [], Some, false, IfErr, IfOk, IfSome, IsTrue, OnOk, OnErr};
ghost use Rattle.std.specs.Prelude.{length};
ghost use Rattle.fe_front.specs.Posting.{may_have, Notes};
ghost use Rattle.fe_front.specs.Event as event;
ghost use Rattle.fe_history.specs.Acts.{WasStoredLast};
ghost use Rattle.fe_shared.specs.Bells.{owed_by_cut};
ghost use Rattle.fe_shared.specs.Holds.{Cuts, IsCutIn, IsUnposted, MakesStep, MakesNothing};
ghost use Rattle.fe_shared.specs.Marks.{waits};

use super::{MOST_COUNTED, Shared};
use crate::bells::{Owed, OwedByPost, Whom};
use fe_disk::Disk;
use fe_history::{History, HistoryWords, StoreSeat, Tally};
use fe_keeper::Keeper;
use fe_state::Batch;
use std::marker::Model;

/// Shows that a hall is stopped and that all that was made in it is durable. Only a cut makes one.
#[derive(Clone, Copy)]
pub struct AllDurable(());

/// A batch that was cut and is to be stored, and how many were cut before it. Only a cut makes one, and
/// nothing changes it. It is not `Drop`, so whoever has one takes the batch out, which needs a keeper to
/// store it.
pub struct CutBatch {
    batch: Batch,
    count: u64,
}

impl Model for CutBatch {
    ghost use Rattle.fe_shared.specs.Shown.{Cut};

    ghost Value = { Cut };

    ghost view = { λ c. record { batch = c.batch; count = c.count } };
}

impl CutBatch {
    /// The batch, which this keeper is to store, and how many were cut before it.
    pub fn into_batch<D: Disk>(self, _keeper: &Keeper<D>) -> (Batch, u64)
        ensures { result ≡ (self.batch, self.count) }
    {
        let CutBatch { batch, count } = self;
        (batch, count)
    }
}

/// Shows that another side noted a cut in the history. Only a cut makes one.
#[derive(Clone, Copy)]
pub struct Uncut(());

/// The outcome of a cut.
pub enum CutOutcome {
    Batch(CutBatch),
    /// The hall is stopped, and nothing is left to store.
    Stopped(AllDurable),
    /// Another side cut a batch, so nothing is cut any more.
    Strange(Uncut),
}

/// Shows that a batch was posted: contracts see the place, the number of entries, after it. Only a post makes
/// one.
#[derive(Drop)]
pub struct Posted {
    durable: u64,
}

impl Model for Posted {
    ghost Value = { ℕ };

    ghost view = { λ p. p.durable };
}

/// Shows that a book, a count of the hall, has no room for the mails of a batch. Only a post makes one.
#[derive(Clone, Copy)]
pub struct FullBook(());

/// Shows that a batch is not the one that is out. Only a post makes one.
#[derive(Clone, Copy)]
pub struct NotOut(());

/// Why a batch was not posted.
#[derive(Clone, Copy)]
pub enum Unposted {
    Full(FullBook),
    Strange(NotOut),
}

impl<C: Tally, M: Tally> Shared<C, M> {
    /// Hands out all pending entries, if there are some and no batch is out, and notes the cut. `None`: there
    /// may be some later.
    pub fn cut(
        &mut self,
        history_words: &HistoryWords<M>,
        cuts: &mut History<M>,
        owed: &mut Owed,
    ) -> Option<CutOutcome>
        requires fresh { self.old.used ≡ false }
        requires unowed { owed.old.whom ≡ Whom.Nobody }
        ensures cuts { Cuts self.old result self.new }
        ensures noted { IfSome result (λ cutting. IsCutIn cutting cuts.new) }
        ensures owes { owed.new.whom ≡ owed_by_cut result }
    {
        self.used = true;
        if !self.front.has_cut() {
            if self.stopped && self.front.durable() == self.front.state().place() {
                return Some(CutOutcome::Stopped(AllDurable(())));
            }
            return None;
        }
        let _ = self.front.state();
        let count = self.posted;
        let mut history = self.history.again();
        if !history.cut(history_words, count, &self.front) {
            return Some(CutOutcome::Strange(Uncut(())));
        }
        history.shows_legal();
        let Some(batch) = self.front.cut() else {
            unreachable!()
        };
        cuts.learn(&history);
        self.history = history;
        owed.whom = Whom::Room;
        Some(CutOutcome::Batch(CutBatch { batch, count }))
    }

    /// Posts the batch that is out, once it is stored: its entries are durable, and each one's mail goes into
    /// the box of the connection that has its session. Owes rings to the connections whose boxes change and,
    /// in any case, to those whose read sides wait. The batch is not posted if a book has no room for its
    /// mails, or if it is not the one that is out.
    pub fn post(
        &mut self,
        batch: Batch,
        seat: &StoreSeat<M>,
        owed: &mut OwedByPost,
    ) -> Result<Posted, Unposted>
        requires fresh { self.old.used ≡ false }
        requires stored { WasStoredLast seat.now batch }
        ensures refused { IfErr result (IsUnposted self.old.front batch) }
        ensures step { OnOk result (MakesStep self.old (event.Post batch) [] self.new) }
        ensures durable { IfOk result (λ posted. posted ≡ batch.first + length batch.entries) }
        ensures notes { Notes self.old.front self.new.front owed.old.changed owed.new.changed }
        ensures added { (conn : ℕ) → IsTrue (waits self.new.watched conn)
            → IsTrue (may_have owed.new.changed conn) }
        ensures err { OnErr result (MakesNothing self.old self.new) }
    {
        self.used = true;
        self.watchers.add_to(&mut owed.changed);
        let count = batch.entries.as_slice().len() as u64;
        let posts_more = self.front.books().mails <= MOST_COUNTED - count;
        if !posts_more {
            drop(batch);
            return Err(Unposted::Full(FullBook(())));
        }
        let _ = self.front.state();
        match self.front.post(batch, &mut owed.changed) {
            Ok(()) => {
                self.history.learn(seat.history());
                self.history.shows_legal();
                self.posted += 1;
                Ok(Posted {
                    durable: self.front.durable(),
                })
            }
            Err(strange) => {
                drop(strange);
                Err(Unposted::Strange(NotOut(())))
            }
        }
    }
}
