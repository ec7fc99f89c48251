ghost use Rattle.std.specs.Prelude.{◌≡◌, ◌+◌, ◌≤◌, ◌<◌, length, Option, Some, None, false, vec_len};
ghost use Rattle.std.specs.Prelude.{IsSomeAnd, IfSome, OnOk};
ghost use Rattle.fe_disk.specs.Disk.{MakesJust};
ghost use Rattle.fe_disk.specs.Runs.{LeavesOnly};
ghost use Rattle.fe_journal.specs.Layout.{device_bytes, area_bytes, slice_bytes, other_than, gate_of};
ghost use Rattle.fe_format.specs.Layout.{IsPayloadLength, IsImageLength};
ghost use Rattle.fe_journal.specs.Contents.{room_at, end_of_groups, Contents, HoldsEither, Holds, with_group};
ghost use Rattle.fe_journal.specs.Journal.{Shuts, Draft, KeepsContents, CallEnds, new_draft, with_slice};
ghost use Rattle.fe_journal.specs.Journal.{IsCatchUp, catch_up_groups, with_draft};

use crate::begun::Begun;
use crate::commit::commit;
use crate::layout::{LONGEST_PAYLOAD, area_of, gate_of, image_of};
use crate::slot::begin_slot;
use crate::spelling::{put_area_start, put_group};
use crate::{Format, JournalFault};
use fe_disk::Disk;
use std::marker::Model;

/// The journal of an opened store. Groups are appended after the image of the slot that counts, while an
/// image is written into the other slot in pieces, until that slot takes over (`docs/store.md`).
///
/// After a fault of the device `append_group` and the three calls of a slot return `Failed` and make no
/// device call. Opening the store again says what was stored. These four calls allocate no memory.
pub struct Journal<D: Disk> {
    disk: D,
    buffer: Vec<u8>,
    slot: usize,
    format: Format,
    generation: u64,
    used: usize,
    begun: Option<Begun>,
    has_failed: bool,
}

impl<D: Disk + Drop> Drop for Journal<D> {
    fn drop(self) {
        let Journal {
            disk,
            buffer,
            slot: _,
            format: _,
            generation: _,
            used: _,
            begun: _,
            has_failed: _,
        } = self;
        drop(disk);
        drop(buffer);
    }
}

impl<D: Disk> Model for Journal<D> {
    ghost use Rattle.fe_journal.specs.Journal.{JournalState};

    ghost Value = { JournalState D };

    ghost use Rattle.fe_journal.specs.within.Fields.{state_of, IsJournal};

    ghost view = { state_of };

    ghost invariant = { IsJournal D.Disk };
}

impl<D: Disk> Journal<D> {
    // A journal that goes on after the groups of an opened or new store.
    pub(crate) fn opened(
        disk: D,
        buffer: Vec<u8>,
        slot: usize,
        format: Format,
        generation: u64,
        used: usize,
    ) -> Journal<D>
        requires device { D.size disk ≡ device_bytes }
        requires buffer { vec_len buffer ≡ area_bytes }
        requires is_slot { slot < 2 }
        requires within { used < area_bytes }
        ensures { result ≡ record {
          disk = disk;
          slot = slot;
          format = format;
          generation = generation;
          used = used;
          begun = None;
          has_failed = false;
        } }
    {
        Journal {
            disk,
            buffer,
            slot,
            format,
            generation,
            used,
            begun: None,
            has_failed: false,
        }
    }

    /// The offset in the journal area of the closed gate after the groups, in bytes.
    pub fn used(&self) -> u32
        ensures { result ≡ self.now.used }
    {
        self.used as u32
    }

    /// The longest payload, in bytes, that `append_group` has room for, 0 if there is no room.
    pub fn room(&self) -> u32
        ensures { result ≡ room_at self.now.used }
    {
        LONGEST_PAYLOAD.saturating_sub(self.used as u32)
    }

    /// The format of the slot that counts, in which groups are appended.
    pub fn store_format(&self) -> Format
        ensures { result ≡ self.now.format }
    {
        self.format
    }

    /// The generation of the slot that counts.
    pub fn generation(&self) -> u64
        ensures { result ≡ self.now.generation }
    {
        self.generation
    }

    /// The slot that counts, 0 or 1.
    pub fn slot(&self) -> usize
        ensures value { result ≡ self.now.slot }
        ensures is_slot { result < 2 }
    {
        self.slot
    }

    /// Whether a device call failed. Then `append_group` and the three calls of a slot return `Failed`.
    pub fn has_failed(&self) -> bool
        ensures { result ≡ self.now.has_failed }
    {
        self.has_failed
    }

    /// The slot that was begun and is not finished.
    pub fn begun(&self) -> Option<Begun>
        ensures { result ≡ self.now.begun }
    {
        self.begun
    }

    /// The disk, as the calls of the journal left it.
    // (It is not inlined: see `keeper_over` in `crates/fe_keeper/src/assembling.rt`.)
    #[inline(never)]
    pub fn into_disk(self) -> D
        ensures disk { result ≡ self.disk }
        ensures size { D.size result ≡ device_bytes }
    {
        let Journal {
            disk,
            buffer,
            slot: _,
            format: _,
            generation: _,
            used: _,
            begun: _,
            has_failed: _,
        } = self;
        drop(buffer);
        disk
    }

    /// Appends a group with this payload after the others. Four device calls (`docs/store.md`).
    pub fn append_group(&mut self, payload: &[u8]) -> Result<(), JournalFault>
        requires allowed { IsPayloadLength self.old.format (length payload.now) }
        requires fits { length payload.now ≤ room_at self.old.used }

        // A stop at any moment of the call leaves the old contents, or those with the new group at the end.
        ensures any_moment { D.honest self.old.disk
            → (c : Contents) (draft : Option Draft) → KeepsContents D.Disk self.old c draft
            → LeavesOnly D.Disk self.old.disk self.new.disk (HoldsEither c (with_group c payload.now)) }
        ensures appended { D.honest self.old.disk
            → (c : Contents) (draft : Option Draft) → KeepsContents D.Disk self.old c draft
            → OnOk result (KeepsContents D.Disk self.new (with_group c payload.now) draft) }

        ensures value { OnOk result
            (self.new ≡ record self.old {
              disk = self.new.disk;
              used = self.old.used + (5 + length payload.now);
            }) }
        ensures made { OnOk result (MakesJust 0 2 2 (D.calls self.old.disk) (D.calls self.new.disk)) }
        ensures ends { CallEnds D.Disk 0 2 2 result self.old self.new }
    {
        if self.has_failed {
            return Err(JournalFault::Failed);
        }
        let count = put_group(&mut self.buffer, payload);
        let gate = area_of(self.slot) + self.used;
        let outcome = commit(&mut self.disk, gate + 1, &self.buffer[1..count], gate);
        if outcome.is_err() {
            self.has_failed = true;
            return Err(JournalFault::Device);
        }
        self.used += 5 + payload.len();
        Ok(())
    }

    /// Begins the slot that does not count: closes its gate if that is open, and writes the fields of its
    /// header. One read, and at most three more device calls.
    pub fn slot_close(
        &mut self,
        format: Format,
        generation: u64,
        image_length: usize,
    ) -> Result<(), JournalFault>
        requires none_begun { self.old.begun ≡ None }
        requires next { generation ≡ self.old.generation + 1 }
        requires allowed { IsImageLength format image_length }

        // A stop at any moment of the call leaves the old contents.
        ensures any_moment { D.honest self.old.disk → (c : Contents) → KeepsContents D.Disk self.old c None
            → LeavesOnly D.Disk self.old.disk self.new.disk (Holds c) }
        ensures closed { D.honest self.old.disk → (c : Contents) → KeepsContents D.Disk self.old c None
            → OnOk result
            (KeepsContents D.Disk self.new c (Some (new_draft format generation image_length))) }

        ensures value { OnOk result (self.new ≡ record self.old {
          disk = self.new.disk;
          begun = Some (record {
            format = format;
            generation = generation;
            image_length = image_length;
            written = 0;
          });
        }) }
        ensures made { D.honest self.old.disk
            → OnOk result (Shuts (D.seen self.old.disk) (gate_of (other_than self.old.slot)) 1
            (D.calls self.old.disk) (D.calls self.new.disk)) }
        ensures ends { CallEnds D.Disk 1 2 1 result self.old self.new }
    {
        if self.has_failed {
            return Err(JournalFault::Failed);
        }
        let slot = 1 - self.slot;
        let outcome = begin_slot(&mut self.disk, slot, format, generation, image_length);
        if outcome.is_err() {
            self.has_failed = true;
            return Err(JournalFault::Device);
        }
        self.begun = Some(Begun {
            format,
            generation,
            image_length,
            written: 0,
        });
        Ok(())
    }

    /// Writes the next slice of the image of the slot begun. One device call.
    pub fn slot_write(&mut self, slice: &[u8]) -> Result<(), JournalFault>
        requires begun { IsSomeAnd self.old.begun (λ b. b.written + length slice.now ≤ b.image_length) }
        requires short { length slice.now ≤ slice_bytes }

        // A stop at any moment of the call leaves the old contents.
        ensures any_moment { D.honest self.old.disk
            → (c : Contents) (d : Draft) → KeepsContents D.Disk self.old c (Some d)
            → LeavesOnly D.Disk self.old.disk self.new.disk (Holds c) }
        ensures written { D.honest self.old.disk
            → (c : Contents) (d : Draft) → KeepsContents D.Disk self.old c (Some d)
            → OnOk result (KeepsContents D.Disk self.new c (Some (with_slice d slice.now))) }

        ensures value { OnOk result (IfSome self.old.begun (λ b. self.new ≡ record self.old {
          disk = self.new.disk;
          begun = Some (record b { written = b.written + length slice.now });
        })) }
        ensures made { OnOk result (MakesJust 0 1 0 (D.calls self.old.disk) (D.calls self.new.disk)) }
        ensures ends { CallEnds D.Disk 0 1 0 result self.old self.new }
    {
        if self.has_failed {
            return Err(JournalFault::Failed);
        }
        let Some(begun) = self.begun else {
            unreachable!()
        };
        let at = image_of(1 - self.slot) + begun.written;
        let outcome = self.disk.write_at(at, slice);
        if outcome.is_err() {
            self.has_failed = true;
            return Err(JournalFault::Device);
        }
        self.begun = Some(Begun {
            written: begun.written + slice.len(),
            ..begun
        });
        Ok(())
    }

    /// Finishes the slot begun, whose image is whole. What came since it was begun, if anything, goes into
    /// its journal area as one group, and then its gate is opened. From then on the slot counts. Four device
    /// calls.
    pub fn slot_finish(&mut self, catch_up: &[u8]) -> Result<(), JournalFault>
        requires begun { IsSomeAnd self.old.begun
            (λ b. (b.written ≡ b.image_length) × IsCatchUp b.format catch_up.now) }

        // A stop at any moment of the call leaves the old contents or those of the new slot.
        ensures any_moment { D.honest self.old.disk
            → (c : Contents) (d : Draft) → KeepsContents D.Disk self.old c (Some d)
            → LeavesOnly D.Disk self.old.disk self.new.disk
            (HoldsEither c (with_draft c d catch_up.now)) }
        ensures finished { D.honest self.old.disk
            → (c : Contents) (d : Draft) → KeepsContents D.Disk self.old c (Some d)
            → OnOk result (KeepsContents D.Disk self.new (with_draft c d catch_up.now) None) }

        ensures value { OnOk result (IfSome self.old.begun (λ b. self.new ≡ record self.old {
          disk = self.new.disk;
          slot = other_than self.old.slot;
          format = b.format;
          generation = b.generation;
          used = end_of_groups (catch_up_groups catch_up.now);
          begun = None;
        })) }
        ensures made { OnOk result (MakesJust 0 2 2 (D.calls self.old.disk) (D.calls self.new.disk)) }
        ensures ends { CallEnds D.Disk 0 2 2 result self.old self.new }
    {
        if self.has_failed {
            return Err(JournalFault::Failed);
        }
        let Some(begun) = self.begun else {
            unreachable!()
        };
        let slot = 1 - self.slot;
        let count = put_area_start(&mut self.buffer, catch_up);
        let outcome = commit(
            &mut self.disk,
            area_of(slot),
            &self.buffer[..count],
            gate_of(slot),
        );
        if outcome.is_err() {
            self.has_failed = true;
            return Err(JournalFault::Device);
        }
        self.slot = slot;
        self.format = begun.format;
        self.generation = begun.generation;
        self.used = count - 1;
        self.begun = None;
        Ok(())
    }
}
