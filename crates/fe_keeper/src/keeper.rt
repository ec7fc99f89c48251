//! The keeper owns the store. It appends batches, entries of the history that are stored at once, and makes
//! checkpoints between them (`docs/store.md`, "The life of a store"; `docs/model.md`, "The keeper").

ghost use Rattle.std.specs.Prelude.{◌≡◌, ◌↔◌, false, IsTrue, ◌+◌, length, is_some, IfOk, IfErr, OnOk, OnErr};
ghost use Rattle.fe_memory.specs.Memory.{out_of_memory};
ghost use Rattle.fe_disk.specs.Disk.{MakesAtMost};
ghost use Rattle.fe_state.specs.State.{IsWithinLimits, after_all};
ghost use Rattle.fe_state.specs.UndoLog.{empty_log, rewound};
ghost use Rattle.fe_codec.specs.Image.{image_spelling};
ghost use Rattle.fe_format.specs.declared.format.Format.TheVariants.{Two};
ghost use Rattle.fe_journal.specs.Layout.{device_bytes};
ghost use Rattle.fe_replica.specs.Replaying.{Continues};
ghost use Rattle.fe_keeper.specs.Stands.{StandsForEither};
ghost use Rattle.fe_keeper.specs.Ends.{StopsLeave, IsDurable, Rests, Ends, ForDevice, ForDeviceAndMemory};
ghost use Rattle.fe_keeper.specs.Ends.{HasBegun, IsAppended, AppendEnds, MakesToAppend, batch_of};
ghost use Rattle.fe_keeper.specs.Keeper.{can_begin, has_slices, must_begin, slices_of, slices_left, stepped};
ghost use Rattle.fe_keeper.specs.Keeper.{finished};
ghost use Rattle.fe_keeper.specs.within.Ends.{HasBatch, HasTaken, IsMadeFor};
ghost use Rattle.fe_keeper.specs.within.Upholds.{store_of};
ghost use Rattle.fe_keeper.specs.declared.fault.Fault.TheVariants.{NoMemory};

use crate::checkpoint::Checkpoint;
use crate::keeper_store::KeeperStore;
use crate::{Fault, Format};
use fe_disk::Disk;
use fe_replica::take;
use fe_state::{Batch, Entry, State, UndoLog};
use std::alloc::Global;
use std::marker::Model;

/// The keeper of a store: a replica of the server's state, and the journal in which each batch is stored
/// before it is answered.
///
/// After a fault of the device `append` and the three calls of a checkpoint return `Failed` and make no
/// device call. Opening the store again says what was stored.
pub struct Keeper<D: Disk> {
    pub(crate) store: KeeperStore<D>,
    pub(crate) state: State,
    /// The log that leads back from a batch that the replica has taken and that is not stored yet.
    pub(crate) log: UndoLog,
    pub(crate) alloc: Global,
}

impl<D: Disk + Drop> Drop for Keeper<D> {
    fn drop(self) {
        let Keeper {
            store,
            state,
            log,
            alloc: _,
        } = self;
        drop(store);
        drop(state);
        drop(log);
    }
}

impl<D: Disk> Model for Keeper<D> {
    ghost use Rattle.fe_keeper.specs.Keeper.{KeeperState};
    ghost use Rattle.std.specs.Coded.{codes};
    ghost use Rattle.fe_state.specs.State.{state_code};

    ghost Value = { KeeperState D };

    ghost coded = { Prim.hlevel (codes, state_code) };

    ghost use Rattle.fe_keeper.specs.within.Upholds.{kept_of, IsKept};

    ghost view = { kept_of };

    ghost invariant = { IsKept D.Disk };
}

impl<D: Disk> Keeper<D> {
    /// The replica of the state. If the disk is honest and has not failed, each image that a stop may leave
    /// stands for it.
    pub fn state(&self) -> &State
        ensures state { result.now ≡ self.now.state }
        ensures durable { IsDurable D.Disk self.now }
        ensures place { self.now.store.place ≡ self.now.state.place }
    {
        &self.state
    }

    /// Appends a batch, entries that follow one another, and stores it as one group. Returns the batch
    /// unchanged, also beside a fault.
    ///
    /// If the batch doesn't fit, the checkpoint under way is finished first. If it still doesn't fit, a whole
    /// checkpoint is made.
    pub fn append(&mut self, batch: Batch) -> Result<Batch, (Fault, Batch)>
        // Each image that a stop at any moment leaves stands for the replica as it was, or with the whole
        // batch.
        ensures any_moment { StopsLeave D.Disk self.old self.new
            (StandsForEither self.old.state (after_all self.old.state batch.entries)) }
        ensures durable { IsDurable D.Disk self.new }
        ensures returned { batch_of result ≡ batch }
        ensures appended { OnOk result (IsAppended self.old self.new batch.first batch.entries) }
        ensures err { OnErr result (self.new.state ≡ self.old.state) }
        ensures ends { AppendEnds D.Disk result self.old self.new batch }
        ensures calls { MakesToAppend self.old.store batch.entries
            (slices_of (length (image_spelling Two self.old.state)))
            (D.calls self.old.store.disk) (D.calls self.new.store.disk) }
        ensures honesty { D.honest self.new.store.disk ↔ D.honest self.old.store.disk }
    {
        if self.store.journal.has_failed() {
            return Err((Fault::Failed, batch));
        }
        let entries = batch.entries.as_slice();
        limits(&self.state);
        if let Err(refused) = take(&mut self.state, &mut self.log, batch.first, entries) {
            return Err((Fault::from(refused), batch));
        }
        let whole = match whole_before(
            self.alloc,
            &self.store,
            &mut self.state,
            &mut self.log,
            batch.first,
            entries,
        ) {
            Ok(whole) => whole,
            Err(fault) => return Err((fault, batch)),
        };
        limits(&self.state);
        match self.store.put(entries, whole) {
            Ok(()) => {
                self.log.clear();
                Ok(batch)
            }
            Err(fault) => {
                self.state.rewind(&mut self.log);
                Err((Fault::from(fault), batch))
            }
        }
    }

    /// Begins a checkpoint, which is written in slices between batches. `false` if one is under way already,
    /// or if the slot that counts is of format 2 and no entry came since its image. It takes memory for the
    /// image and for a group of 13,107 entries.
    pub fn checkpoint_begin(&mut self) -> Result<bool, Fault>
        ensures rests { Rests D.Disk self.old self.new }
        ensures durable { IsDurable D.Disk self.new }
        ensures value { IfOk result (λ begun. begun ≡ can_begin self.old.store) }
        ensures store { OnOk result (HasBegun self.old self.new
            (length (image_spelling Two self.old.state))) }
        ensures ends { Ends D.Disk
            (ForDeviceAndMemory (IsTrue (can_begin self.old.store))) result self.old self.new }
        ensures calls { MakesAtMost 1 2 1 (D.calls self.old.store.disk) (D.calls self.new.store.disk) }
    {
        if self.store.journal.has_failed() {
            return Err(Fault::Failed);
        }
        if !self.store.can_begin() {
            return Ok(false);
        }
        let checkpoint = Checkpoint::new(self.alloc, &self.state)?;
        self.store.begin(checkpoint)?;
        Ok(true)
    }

    /// Writes the next slice of the checkpoint under way, at most 65,536 bytes. Returns whether slices are
    /// left after it; `false` also if no checkpoint is under way. It takes no memory.
    pub fn checkpoint_step(&mut self) -> Result<bool, Fault>
        ensures rests { Rests D.Disk self.old self.new }
        ensures durable { IsDurable D.Disk self.new }
        ensures value { IfOk result (λ more. more ≡ has_slices self.new.store.checkpoint) }
        ensures store { OnOk result (self.new.store
            ≡ record (stepped self.old.store) { disk = self.new.store.disk }) }
        // If no slice is left, it makes no device call.
        ensures idle { has_slices self.old.store.checkpoint ≡ false → self.new ≡ self.old }
        ensures ends { Ends D.Disk
            (ForDevice (IsTrue (has_slices self.old.store.checkpoint))) result self.old self.new }
        ensures calls { MakesAtMost 0 1 0 (D.calls self.old.store.disk) (D.calls self.new.store.disk) }
    {
        if self.store.journal.has_failed() {
            return Err(Fault::Failed);
        }
        if self.store.checkpoint.is_none() {
            return Ok(false);
        }
        let more = self.store.step()?;
        Ok(more)
    }

    /// Finishes the checkpoint under way: writes the slices that are left and the entries since it was begun
    /// as one group, and opens the gate. `false` if none is under way. It takes no memory.
    pub fn checkpoint_finish(&mut self) -> Result<bool, Fault>
        ensures rests { Rests D.Disk self.old self.new }
        ensures durable { IsDurable D.Disk self.new }
        ensures value { IfOk result (λ was. was ≡ is_some self.old.store.checkpoint) }
        ensures store { OnOk result (self.new.store
            ≡ record (finished self.old.store) { disk = self.new.store.disk }) }
        // If none is under way, it makes no device call.
        ensures idle { is_some self.old.store.checkpoint ≡ false → self.new ≡ self.old }
        ensures ends { Ends D.Disk
            (ForDevice (IsTrue (is_some self.old.store.checkpoint))) result self.old self.new }
        ensures calls { MakesAtMost 0 (slices_left self.old.store.checkpoint + 2) 2
            (D.calls self.old.store.disk)
            (D.calls self.new.store.disk) }
    {
        if self.store.journal.has_failed() {
            return Err(Fault::Failed);
        }
        if self.store.checkpoint.is_none() {
            return Ok(false);
        }
        self.store.finish()?;
        Ok(true)
    }

    /// Whether a device call failed. Then `append` and the three calls of a checkpoint return `Failed`.
    pub fn has_failed(&self) -> bool
        ensures { result ≡ self.now.store.has_failed }
    {
        self.store.journal.has_failed()
    }

    /// How many bytes of the journal area are used: the offset of the closed gate after the groups.
    pub fn used(&self) -> u32
        ensures { result ≡ self.now.store.used }
    {
        self.store.journal.used()
    }

    /// The format of the slot that counts, in which groups are appended.
    pub fn store_format(&self) -> Format
        ensures { result ≡ self.now.store.format }
    {
        self.store.journal.store_format()
    }

    /// The disk, as the calls of the keeper left it.
    pub fn into_disk(self) -> D
        ensures disk { result ≡ self.store.disk }
        ensures size { D.size result ≡ device_bytes }
    {
        let Keeper {
            store,
            state,
            log,
            alloc: _,
        } = self;
        drop(state);
        drop(log);
        let KeeperStore { journal, .. } = store;
        journal.into_disk()
    }
}

/// Shows to proofs that a replica is within the limits, the invariant of every `State`.
fn limits(state: &State)
    ensures { IsWithinLimits state.now }
{
    let _ = state.place();
}

/// The checkpoint of the state before a batch that the replica has taken, if a whole one, from beginning to
/// end, has to be made for the batch. To spell it, the replica goes back to that state and then takes the
/// batch again. So all memory is taken before any call of the device.
fn whole_before<D: Disk>(
    alloc: Global,
    store: &KeeperStore<D>,
    state: &mut State,
    log: &mut UndoLog,
    first: u64,
    entries: &[Entry],
) -> Result<Option<Checkpoint>, Fault>
    requires batch { HasBatch store.now state.old log.old entries.now }
    requires continues { Continues (rewound log.old state.old) first entries.now }
    ensures taken { OnOk result (HasTaken (rewound log.old state.old) entries.now state.new log.new) }
    ensures room { log.new.room ≡ log.old.room }
    ensures made { IfOk result (IsMadeFor store.now (rewound log.old state.old) entries.now) }
    ensures err { OnErr result ((state.new ≡ rewound log.old state.old)
        × (log.new ≡ empty_log log.old.room)) }
    ensures memory { IfErr result (λ fault. (fault ≡ NoMemory out_of_memory)
        × IsTrue (must_begin (store_of store.now) entries.now)) }
{
    if !store.must_begin(entries) {
        return Ok(None);
    }
    state.rewind(log);
    let whole = Checkpoint::new(alloc, state)?;
    take(state, log, first, entries)?;
    Ok(Some(whole))
}
