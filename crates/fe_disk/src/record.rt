//! The record of the calls of a disk in memory, and what a stop does to the ranges in it (`docs/model.md`,
//! "The disk"). An image is all bytes of a disk.

ghost use Rattle.std.specs.Prelude.{◌≡◌, ◌+◌, ◌≤◌, ◌∷◌, [], length, IfOk, OnOk, OnErr};
ghost use Rattle.fe_disk.specs.Disk.{IsImage, bytes_at, after_write};
ghost use Rattle.fe_disk.specs.Memory.{Write, Sync, AreWithin, image_with_tears};
ghost use Rattle.fe_disk.specs.within.Record.{newest_first};

use crate::Torn;
use fe_memory::OutOfMemory;
use std::alloc::Global;
use std::marker::Model;
use std::snapshot::Snapshot;

/// The bytes that a write replaced, and the offset of the first of them.
#[derive(Drop)]
struct Replaced {
    at: usize,
    before: Vec<u8>,
}

/// The writes and syncs that succeeded, the latest one outermost. They exist in proofs alone.
#[derive(Drop)]
enum Past {
    None,
    Wrote(Snapshot<Past>, Snapshot<Replaced>),
    Synced(Snapshot<Past>),
}

/// The writes and syncs of a disk that succeeded. The code keeps only the writes since the last sync.
#[derive(Drop)]
pub struct Record {
    /// What the writes since the last sync replaced, the earliest one first.
    unsynced: Vec<Replaced>,
    past: Past,
}

impl Model for Record {
    ghost use Rattle.std.specs.Prelude.{List};
    ghost use Rattle.fe_disk.specs.Memory.{DiskEvent};

    ghost Value = { List DiskEvent };

    ghost use Rattle.fe_disk.specs.within.Record.{events_of, IsUnsynced};

    ghost view = { events_of };

    ghost invariant = { IsUnsynced };
}

impl Record {
    /// No write and no sync.
    pub fn new(alloc: Global) -> Record
        ensures { result ≡ [] }
    {
        Record {
            unsynced: Vec::new(alloc),
            past: Past::None,
        }
    }

    /// Records a write of this many bytes, with the bytes that it replaces.
    pub fn wrote(
        &mut self,
        alloc: Global,
        image: &[u8],
        at: usize,
        size: usize,
    ) -> Result<(), OutOfMemory>
        requires { at + size ≤ length image.now }
        ensures ok { OnOk result (self.new ≡ Write at (bytes_at image.now at size) ∷ self.old) }
        ensures err { OnErr result (self.new ≡ self.old) }
    {
        let before = image[at..at + size].to_vec(alloc)?;
        let replaced = Replaced { at, before };
        let noted = Snapshot::of(&replaced);
        self.unsynced.push(replaced)?;
        self.past = Past::Wrote(Snapshot::of(&self.past), noted);
        Ok(())
    }

    /// Records a sync, and lets go of the writes before it.
    pub fn synced(&mut self)
        ensures { self.new ≡ Sync ∷ self.old }
    {
        self.unsynced.clear();
        self.past = Past::Synced(Snapshot::of(&self.past));
    }

    /// A copy of the image after a stop that does this to the ranges written since the last sync.
    pub fn torn_copy(&self, alloc: Global, torn: Torn, image: &[u8]) -> Result<Vec<u8>, OutOfMemory>
        requires within { AreWithin (length image.now) self.now }
        requires bytes { IsImage (length image.now) image.now }
        ensures torn { IfOk result (λ copy. copy.items ≡ image_with_tears torn image.now self.now) }
        ensures bytes { IfOk result (λ copy. IsImage (length image.now) copy.items) }
    {
        let mut copy = image.to_vec(alloc)?;
        tear(torn, &self.unsynced, &mut copy);
        Ok(copy)
    }
}

/// Replaces the bytes from `at` on.
pub fn replace(image: &mut [u8], at: usize, bytes: &[u8])
    requires { at + length bytes.now ≤ length image.old }
    ensures { image.new ≡ after_write image.old at bytes.now }
{
    image[at..at + bytes.len()].copy_from_slice(bytes);
}

// Does to the ranges of these writes what a stop does.
fn tear(torn: Torn, writes: &[Replaced], image: &mut [u8])
    requires within { AreWithin (length image.old) (newest_first writes.now) }
    requires bytes { IsImage (length image.old) image.old }
    ensures torn { image.new ≡ image_with_tears torn image.old (newest_first writes.now) }
    ensures bytes { IsImage (length image.old) image.new }
{
    let mut rest = writes;
    while let [earlier @ .., Replaced { at, before }] = rest {
        match torn {
            Torn::Kept => {}
            Torn::Lost => replace(image, *at, before),
            Torn::Byte(byte) => image[*at..*at + before.len()].fill(byte),
        }
        rest = earlier;
    }
}
