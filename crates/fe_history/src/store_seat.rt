//! Part of a hall's history: the batches that its committing thread has stored (`docs/headline.md`, "Every
//! acknowledged answer").

ghost use Rattle.std.specs.Prelude.{◌≡◌, [], MatchBool, OnOk, OnErr};
ghost use Rattle.fe_history.specs.Acts.{GoesOnFrom, HasMore, HasStoredNext, IsStored, WasCut, stores_in};

use crate::history::{History, HistoryWords};
use crate::tally::Tally;
use fe_disk::Disk;
use fe_keeper::Keeper;
use fe_state::Batch;
use std::marker::Model;

/// The most batches that a side notes, that is adds to the history as stored.
const BATCHES: u64 = 1 << 62;

/// Shows that a batch was not noted: this side had noted another number of batches than were cut before it,
/// or 2^62, or another side had noted one. Only `StoreSeat::note` makes it.
#[derive(Clone, Copy)]
pub struct Unnoted(());

/// The seat of a hall's committing side, its committing thread: the record of what it stored. Contracts see
/// the history, with the batches that it noted.
#[derive(Drop)]
pub struct StoreSeat<M: Tally> {
    /// How many batches it noted.
    stored: u64,
    history: History<M>,
}

impl<M: Tally> Model for StoreSeat<M> {
    ghost use Rattle.std.specs.Coded.{codes};
    ghost use Rattle.fe_history.specs.contracts.act.Act as acts;
    ghost use Rattle.std.specs.Prelude.{◌≡◌, List, length};
    ghost use Rattle.fe_history.specs.declared.act.Act.{Act};
    ghost use Rattle.fe_history.specs.Acts.{stores_in};

    ghost Value = { List Act };

    ghost coded = { Prim.hlevel (codes, acts.the_row.coded) };

    ghost view = { λ s. s.history };

    ghost invariant = { λ s. s.stored ≡ length (stores_in s.history) };
}

impl<M: Tally> StoreSeat<M> {
    /// The seat of a hall that just began.
    pub fn new(history: History<M>) -> StoreSeat<M>
        requires { stores_in history ≡ [] }
        ensures { result ≡ history }
    {
        StoreSeat { stored: 0, history }
    }

    /// Notes the batch that a keeper has just stored; `count` batches were cut before it. Nothing changes if
    /// this side noted another number of batches so far, or 2^62, or if another side noted one.
    pub fn note<D: Disk>(
        &mut self,
        history_words: &HistoryWords<M>,
        batch: &Batch,
        count: u64,
        cuts: &History<M>,
        keeper: &Keeper<D>,
    ) -> Result<(), Unnoted>
        requires cut { WasCut cuts.now count batch.now }
        requires stored { IsStored batch.now keeper.now.state }
        ensures noted { OnOk result (HasStoredNext self.old batch.now (D.moment keeper.now.store.disk)
            self.new) }
        ensures unnoted { OnErr result (self.new ≡ self.old) }
    {
        if self.stored >= BATCHES || self.stored != count {
            return Err(Unnoted(()));
        }
        let mut history = self.history.again();
        history.learn(cuts);
        if !history.store(history_words, self.stored, batch, keeper) {
            return Err(Unnoted(()));
        }
        self.stored += 1;
        self.history = history;
        Ok(())
    }

    /// The history, as far as this side has seen it.
    pub fn history(&self) -> &History<M>
        ensures { result.now ≡ self.now }
    {
        &self.history
    }

    /// What this side and the other history saw together, and whether this side noted every batch in it.
    pub(crate) fn whole(
        self,
        history_words: &HistoryWords<M>,
        seen: History<M>,
    ) -> (History<M>, bool)
        ensures seen { GoesOnFrom self seen result.0 }
        ensures own { MatchBool result.1 (stores_in result.0 ≡ stores_in self)
            (HasMore (stores_in self) (stores_in result.0)) }
    {
        let StoreSeat { stored, history } = self;
        let mut all = history;
        all.learn(&seen);
        drop(seen);
        if all.count(history_words) != stored {
            return (all, false);
        }
        (all, true)
    }
}
