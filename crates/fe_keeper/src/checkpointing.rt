//! Checkpoints: the image of the state is written to the slot that does not count, slice by slice. Then the
//! entries that came meanwhile, the catch-up, go there as a group, if any came, and the slot counts
//! (`docs/store.md`).

ghost use Rattle.std.specs.Prelude.{◌≡◌, ◌+◌, false, vec_len, IsTrue, IfOk, OnOk};
ghost use Rattle.fe_disk.specs.Disk.{MakesAtMost};
ghost use Rattle.fe_keeper.specs.Keeper as effect;
ghost use Rattle.fe_keeper.specs.Keeper.{fits, has_slices, slices_of, slices_left, finished, renewed};
ghost use Rattle.fe_keeper.specs.Keeper.{made_room};
ghost use Rattle.fe_keeper.specs.within.Ends.{StepEnds, Always, IsStepped, MakesRoom, IsImageOf};
ghost use Rattle.fe_keeper.specs.within.Ends.{IsImageIfSome, whole_slices, HasCheckpoint, CanTake};
ghost use Rattle.fe_keeper.specs.within.Ends.{CanStoreWith};
ghost use Rattle.fe_keeper.specs.within.Upholds.{store_of};

use crate::Format;
use crate::checkpoint::Checkpoint;
use crate::keeper_store::KeeperStore;
use fe_disk::Disk;
use fe_journal::JournalFault;
use fe_state::Entry;

impl<D: Disk> KeeperStore<D> {
    /// Begins a checkpoint: closes the other slot's gate if it is open, and writes its header's fields.
    pub(crate) fn begin(&mut self, checkpoint: Checkpoint) -> Result<(), JournalFault>
        requires can { CanTake self.old checkpoint }
        ensures step { StepEnds D.Disk (IsImageOf checkpoint) result self.old self.new }
        ensures value { OnOk result (store_of self.new
            ≡ record (effect.begun (store_of self.old)
            (vec_len checkpoint.image)) { disk = self.new.journal.disk }) }
        ensures ready { OnOk result (HasCheckpoint self.new) }
        ensures calls { MakesAtMost 1 2 1 (D.calls self.old.journal.disk) (D.calls self.new.journal.disk) }
    {
        let generation = self.journal.generation() + 1;
        self.journal
            .slot_close(Format::Two, generation, checkpoint.image.len())?;
        self.checkpoint = Some(checkpoint);
        Ok(())
    }

    /// Writes the next slice of the image, if one is left. Returns whether slices are left after it.
    pub(crate) fn step(&mut self) -> Result<bool, JournalFault>
        requires ready { HasCheckpoint self.old }
        ensures step { StepEnds D.Disk Always result self.old self.new }
        ensures stepped { IfOk result (IsStepped self.old self.new) }
        ensures rests { has_slices (store_of self.old).checkpoint ≡ false → self.new ≡ self.old }
        ensures calls { MakesAtMost 0 1 0 (D.calls self.old.journal.disk) (D.calls self.new.journal.disk) }
    {
        let Some(checkpoint) = &mut self.checkpoint else {
            unreachable!()
        };
        let more = checkpoint.write_slice(&mut self.journal)?;
        Ok(more)
    }

    /// Finishes the checkpoint under way: writes the slices left and the catch-up, and opens the gate.
    pub(crate) fn finish(&mut self) -> Result<(), JournalFault>
        requires ready { HasCheckpoint self.old }
        ensures step { StepEnds D.Disk Always result self.old self.new }
        ensures value { OnOk result (store_of self.new
            ≡ record (finished (store_of self.old)) { disk = self.new.journal.disk }) }
        ensures calls { MakesAtMost 0 (slices_left (store_of self.old).checkpoint + 2) 2
            (D.calls self.old.journal.disk) (D.calls self.new.journal.disk) }
    {
        while self.step()? {}
        let Some(checkpoint) = &self.checkpoint else {
            unreachable!()
        };
        self.journal.slot_finish(&checkpoint.catch_up)?;
        self.checkpoint = None;
        Ok(())
    }

    /// Begins a checkpoint and finishes it before the next batch.
    fn renew(&mut self, whole: Checkpoint) -> Result<(), JournalFault>
        requires can { CanTake self.old whole }
        ensures step { StepEnds D.Disk (IsImageOf whole) result self.old self.new }
        ensures value { OnOk result (store_of self.new
            ≡ record (renewed (store_of self.old)) { disk = self.new.journal.disk }) }
        ensures calls { MakesAtMost 1 (slices_of (vec_len whole.image) + 4) 3 (D.calls self.old.journal.disk)
            (D.calls self.new.journal.disk) }
    {
        self.begin(whole)?;
        self.finish()
    }

    /// Makes room for a batch, if it does not fit: finishes the checkpoint under way, and if that is not
    /// enough, makes the whole one that the caller has prepared.
    pub(crate) fn make_room(
        &mut self,
        entries: &[Entry],
        whole: Option<Checkpoint>,
    ) -> Result<(), JournalFault>
        requires can { CanStoreWith self.old entries.now whole }
        ensures step { StepEnds D.Disk (IsImageIfSome whole) result self.old self.new }
        ensures value { OnOk result (store_of self.new
            ≡ record (made_room (store_of self.old) entries.now) { disk = self.new.journal.disk }) }
        ensures fits { OnOk result (IsTrue (fits (store_of self.new) entries.now)) }
        ensures calls { MakesRoom (store_of self.old) entries.now (whole_slices whole)
            (D.calls self.old.journal.disk)
            (D.calls self.new.journal.disk) }
    {
        if self.fits(entries) {
            return Ok(());
        }
        let Some(whole) = whole else {
            return self.finish();
        };
        if self.checkpoint.is_none() {
            return self.renew(whole);
        }
        self.finish()?;
        self.renew(whole)
    }
}
