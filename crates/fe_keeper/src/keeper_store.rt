//! The bytes side of a keeper: batches of entries become groups in the store's journal, and checkpoints go on
//! between them (`docs/store.md`, "The life of a store").

ghost use Rattle.std.specs.Prelude.{◌≡◌, ◌+◌, ◌≤◌, length, IsTrue, OnOk, vec_capacity};
ghost use Rattle.std.specs.List.{AllByRecursion, list_all};
ghost use Rattle.fe_disk.specs.Disk.{MakesAtMost};
ghost use Rattle.fe_state.specs.Format.{entry_fits_format_1};
ghost use Rattle.fe_state.specs.Limits.{most_batch_entries};
ghost use Rattle.fe_codec.specs.Record.{CanPut, FitsGroup, group_spelling};
ghost use Rattle.fe_format.specs.Layout.{group_records};
ghost use Rattle.fe_format.specs.declared.format.Format.TheVariants.{Two};
ghost use Rattle.fe_journal.specs.Contents.{room_at};
ghost use Rattle.fe_keeper.specs.Ends.{MakesToAppend};
ghost use Rattle.fe_keeper.specs.Keeper.{fits, is_spellable, caught_up_bytes, can_begin, appended, made_room};
ghost use Rattle.fe_keeper.specs.Keeper.{must_begin};
ghost use Rattle.fe_keeper.specs.within.Upholds.{batch_bytes, HasRoomFor, CatchesUp, IsSpelledBatch, IsStore};
ghost use Rattle.fe_keeper.specs.within.Upholds.{store_of};
ghost use Rattle.fe_keeper.specs.within.Ends.{Always, BatchEnds, IsImageIfSome, whole_slices, CanStore};
ghost use Rattle.fe_keeper.specs.within.Ends.{CanStoreWith};

use crate::Format;
use crate::checkpoint::Checkpoint;
use fe_codec::put_group;
use fe_disk::Disk;
use fe_journal::{Journal, JournalFault, LONGEST_PAYLOAD};
use fe_state::Entry;

/// Whether format 1 has a record for each entry.
fn all_fit_format_1(entries: &[Entry]) -> bool
    ensures { result ≡ list_all entry_fits_format_1 entries.now }
{
    entries.iter().all(|entry| entry.fits_format_1())
}

/// Whether the format has a record for each entry.
fn is_spellable(format: Format, entries: &[Entry]) -> bool
    ensures { result ≡ is_spellable format entries.now }
{
    match format {
        Format::One => all_fit_format_1(entries),
        Format::Two => true,
    }
}

/// Spells a batch that fits as the payload of a group.
fn spell(format: Format, entries: &[Entry], group: &mut Vec<u8>)
    requires each { AllByRecursion (CanPut format) entries.now }
    requires few { length entries.now ≤ most_batch_entries }
    requires room { batch_bytes ≤ vec_capacity group.old }
    ensures spelled { group.new.items ≡ group_spelling format entries.now }
    ensures fits { FitsGroup format entries.now }
    ensures room { batch_bytes ≤ vec_capacity group.new }
{
    group.clear();
    let _ = put_group(format, entries, group);
}

/// Adds entries, for which there is room, to those that a checkpoint under way catches up with. The group has
/// their records in the store's format, which are copied if that is format 2.
fn catch_up(checkpoint: &mut Option<Checkpoint>, format: Format, group: &[u8], entries: &[Entry])
    requires batch { IsSpelledBatch format group.now entries.now }
    requires room { HasRoomFor checkpoint.old (length entries.now) }
    ensures { CatchesUp entries.now checkpoint.old checkpoint.new }
{
    if let Some(checkpoint) = checkpoint {
        match format {
            Format::One => {
                let _ = put_group(Format::Two, entries, &mut checkpoint.catch_up);
            }
            Format::Two => {
                let _ = checkpoint.catch_up.extend_from_slice(group);
            }
        }
    }
}

/// The length of the longest payload, in bytes, that fits after a catch-up of this many entries, whose gate
/// and length take 5 bytes.
fn room_behind(entries: usize) -> usize
    requires few { entries ≤ group_records Two }
    ensures { result ≡ room_at (caught_up_bytes entries) }
{
    match entries {
        0 => LONGEST_PAYLOAD as usize,
        _ => LONGEST_PAYLOAD as usize - (5 + entries * Format::Two.record_bytes()),
    }
}

/// The bytes side of a keeper: the journal, the bytes of the group at hand, how many entries are stored, and
/// the checkpoint under way.
#[derive(Drop)]
pub(crate) struct KeeperStore<D: Disk> {
    pub(crate) journal: Journal<D>,
    pub(crate) group: Vec<u8>,
    pub(crate) place: u64,
    pub(crate) checkpoint: Option<Checkpoint>,
}

impl<D: Disk> KeeperStore<D> {
    /// Whether a batch can be appended without a checkpoint first.
    pub(crate) fn fits(&self, entries: &[Entry]) -> bool
        requires sound { IsStore self.now }
        requires few { length entries.now ≤ most_batch_entries }
        ensures { result ≡ fits (store_of self.now) entries.now }
    {
        let format = self.journal.store_format();
        is_spellable(format, entries)
            && entries.len() * format.record_bytes() <= self.journal.room() as usize
            && match &self.checkpoint {
                None => true,
                Some(checkpoint) => (self.place - checkpoint.place) as usize + entries.len()
                    <= Format::Two.group_records(),
            }
    }

    /// Whether a checkpoint can be begun: none is under way, and an entry came since the image of the slot
    /// that counts, or that slot is of format 1.
    pub(crate) fn can_begin(&self) -> bool
        ensures { result ≡ can_begin (store_of self.now) }
    {
        let is_behind = match self.journal.store_format() {
            Format::One => true,
            Format::Two => self.journal.used() > 0,
        };
        self.checkpoint.is_none() && is_behind
    }

    /// Whether a whole checkpoint has to be made for a batch: the batch does not fit, and would not once the
    /// checkpoint under way is finished.
    pub(crate) fn must_begin(&self, entries: &[Entry]) -> bool
        requires sound { IsStore self.now }
        requires few { length entries.now ≤ most_batch_entries }
        ensures { result ≡ must_begin (store_of self.now) entries.now }
    {
        if self.fits(entries) {
            return false;
        }
        match &self.checkpoint {
            None => true,
            Some(checkpoint) => {
                let since = (self.place - checkpoint.place) as usize;
                entries.len() * Format::Two.record_bytes() > room_behind(since)
            }
        }
    }

    /// Appends a batch that fits as a group, and adds it to what a checkpoint under way catches up with.
    pub(crate) fn append(&mut self, entries: &[Entry]) -> Result<(), JournalFault>
        requires can { CanStore self.old entries.now }
        requires fits { IsTrue (fits (store_of self.old) entries.now) }
        ensures stored { BatchEnds D.Disk Always result self.old self.new entries.now }
        ensures value { OnOk result (store_of self.new
            ≡ record (appended (store_of self.old) entries.now) { disk = self.new.journal.disk }) }
        ensures calls { MakesAtMost 0 2 2 (D.calls self.old.journal.disk) (D.calls self.new.journal.disk) }
    {
        let format = self.journal.store_format();
        spell(format, entries, &mut self.group);
        self.journal.append_group(&self.group)?;
        catch_up(&mut self.checkpoint, format, &self.group, entries);
        self.place += entries.len() as u64;
        Ok(())
    }

    /// Stores a batch. If it does not fit, room is made first, with the whole checkpoint that the caller has
    /// prepared if it needs one.
    pub(crate) fn put(
        &mut self,
        entries: &[Entry],
        whole: Option<Checkpoint>,
    ) -> Result<(), JournalFault>
        requires can { CanStoreWith self.old entries.now whole }
        ensures stored { BatchEnds D.Disk (IsImageIfSome whole) result self.old self.new entries.now }
        ensures value { OnOk result (store_of self.new
            ≡ record (appended
            (made_room (store_of self.old) entries.now) entries.now) { disk = self.new.journal.disk }) }
        ensures calls { MakesToAppend (store_of self.old) entries.now (whole_slices whole)
            (D.calls self.old.journal.disk) (D.calls self.new.journal.disk) }
    {
        self.make_room(entries, whole)?;
        self.append(entries)
    }
}
