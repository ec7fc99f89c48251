//! Opening a store for the journal, which knows the bytes of its image and groups, and not what they say
//! (`docs/store.md`, "Opening a store").

ghost use Rattle.std.specs.Prelude.{◌≡◌, IfOk, IfErr};
ghost use Rattle.fe_disk.specs.Runs.{without_disk};
ghost use Rattle.fe_journal.specs.Damage.{IsUnformatted};
ghost use Rattle.fe_journal.specs.Layout.{device_bytes};
ghost use Rattle.fe_journal.specs.Journal.{IsIdle};
ghost use Rattle.fe_journal.specs.Found.{FindsStore, AreListed, AsksToOpen, disk_after, refusal, told};
ghost use Rattle.fe_journal.specs.Found.{BlankIsTold};
ghost use Rattle.fe_journal.specs.declared.fault.StoreFault.TheVariants.{Device, Unformatted};

use crate::layout::area_of;
use crate::store::{Store, read_store};
use crate::{Groups, Journal, StoreFault};
use fe_disk::Disk;
use std::alloc::Global;
use std::marker::Model;

/// An opened store: its journal, which goes on after the groups, the bytes of the state's image, and a cursor
/// before the first group.
#[derive(Drop)]
pub struct Found<D: Disk> {
    pub journal: Journal<D>,
    pub image: Vec<u8>,
    pub groups: Groups,
}

/// A disk that an opening found unformatted. Only `Journal::find` makes one, and formatting takes nothing
/// else.
pub struct Blank<D: Disk> {
    disk: D,
}

impl<D: Disk + Drop> Drop for Blank<D> {
    fn drop(self) {
        let Blank { disk } = self;
        drop(disk);
    }
}

impl<D: Disk> Model for Blank<D> {
    ghost use Rattle.fe_journal.specs.Damage.{IsUnformatted};

    ghost Value = { D };

    ghost coded = { D.code };

    ghost view = { λ b. b.disk };

    // An honest disk is unformatted.
    ghost invariant = { λ b. D.honest b.disk → IsUnformatted (D.seen b.disk) };
}

impl<D: Disk> Blank<D> {
    /// The size of the disk in bytes. It may be another than that of a store.
    pub fn size(&self) -> usize
        ensures { result ≡ D.size self.now }
    {
        self.disk.size()
    }

    /// The disk, which is not formatted.
    pub fn into_disk(self) -> D
        ensures disk { result ≡ self }
        ensures unformatted { D.honest result → IsUnformatted (D.seen result) }
    {
        let Blank { disk } = self;
        disk
    }
}

/// Why a store was not opened, and its disk. Each layer has its own type of faults, `F`.
#[derive(Drop)]
pub enum Unopened<F, D: Disk> {
    /// The disk is unformatted.
    Blank(Blank<D>),
    /// There is another fault.
    Refused(F, D),
}

impl<F: Drop, D: Disk> Unopened<F, D> {
    /// The fault and the disk. The fault of a blank disk is `unformatted`.
    pub fn into_parts(self, unformatted: F) -> (F, D)
        ensures { result ≡ refusal unformatted self }
    {
        match self {
            Unopened::Blank(blank) => (unformatted, blank.into_disk()),
            Unopened::Refused(fault, disk) => (fault, disk),
        }
    }
}

impl<D: Disk> Journal<D> {
    /// Opens a store: a sync, and then only reads. It takes about three megabytes. The journal keeps one of
    /// them.
    ///
    /// The fault of a damaged store is the first thing wrong in the slot that counts: its generation,
    /// its image's length, the lengths of its groups (`docs/formats.md`, "Device" and "Journal area").
    pub fn find(alloc: Global, disk: D) -> Result<Found<D>, Unopened<StoreFault, D>>
        // Of an honest disk: what is found is what reads give, a reported fault is the store's, and it is
        // only synced and read.
        ensures finds { D.honest disk → FindsStore D.Disk disk (told Unformatted result) }

        // Over any disk, no slot is begun and no call has failed.
        ensures ready { IfOk result (λ found. IsIdle found.journal) }
        ensures listed { IfOk result AreListed }
        ensures device { AsksToOpen D.Disk Device (without_disk (told Unformatted result)) disk
            (disk_after (told Unformatted result)) }
        ensures sized { IfOk result (λ found. D.size disk ≡ device_bytes) }
        ensures blank { IfErr result (BlankIsTold Unformatted) }
    {
        let mut disk = disk;
        match read_store(alloc, &mut disk) {
            Err(StoreFault::Unformatted) => Err(Unopened::Blank(Blank { disk })),
            Err(fault) => Err(Unopened::Refused(fault, disk)),
            Ok(store) => {
                let Store {
                    buffer,
                    slot,
                    header,
                    parts,
                } = store;
                let journal = Journal::opened(
                    disk,
                    buffer,
                    slot,
                    header.format,
                    header.generation,
                    parts.used,
                );
                Ok(Found {
                    journal,
                    image: parts.image,
                    groups: Groups::new(parts.area, area_of(slot)),
                })
            }
        }
    }
}
