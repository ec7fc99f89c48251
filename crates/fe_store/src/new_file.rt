//! A file that is made at `PATH.new`, and gets its last name only once it is whole (`docs/store.md`, "The
//! file").

ghost use Rattle.std.specs.Prelude.{◌≡◌, length, OnOk, IfOk};
ghost use Rattle.fe_disk.specs.Disk.{LeavesJust};
ghost use Rattle.fe_disk.specs.FileDisk.{file_of};
ghost use Rattle.fe_journal.specs.Layout.{device_bytes};
ghost use Rattle.fe_store.specs.Names.{new_name, IsWhole};

use crate::fault::{BesideFault, OpenFault};
use crate::opening::open_on;
use crate::store_path::StorePath;
use fe_disk::{DeviceFault, Disk, FileDisk, StoreFile};
use fe_keeper::Keeper;
use std::alloc::Global;
use std::fs::File;
use std::rt::Files;

/// A file that was made at `PATH.new`.
#[derive(Drop)]
pub(crate) struct NewFile<F: StoreFile> {
    disk: FileDisk<F>,
    ghost size: { F.size (file_of disk) ≡ device_bytes },
}

/// The file, with a store that was formatted there.
#[derive(Drop)]
pub(crate) struct NewStore<F: StoreFile> {
    keeper: Keeper<FileDisk<F>>,
}

/// The file, with bytes that were written and synced.
#[derive(Drop)]
pub(crate) struct NewCopy<F: StoreFile> {
    disk: FileDisk<F>,
}

impl<F: StoreFile + Drop> NewFile<F> {
    /// Makes the file. If a file has its name, the call fails.
    pub(crate) fn create<R: Files<File = File>>(
        place: &StorePath<'_, R>,
        new: &str,
    ) -> Result<NewFile<F>, BesideFault>
        requires new { new.now ≡ new_name place.now.path.now }
    {
        let disk = place.create(new)?;
        Ok(NewFile { disk })
    }

    /// Formats it.
    pub(crate) fn format(self, alloc: Global) -> Result<NewStore<F>, BesideFault>
        ensures { IfOk result (λ store. IsWhole ⟦<FileDisk<F> as Disk>⟧ store.keeper) }
    {
        match open_on(alloc, self.disk, true) {
            Ok(keeper) => Ok(NewStore { keeper }),
            Err((OpenFault::Memory(error), _)) => Err(BesideFault::Memory(error)),
            Err(_) => Err(BesideFault::Device),
        }
    }

    /// Writes these bytes, so that no stop loses them.
    pub(crate) fn fill(self, bytes: &[u8]) -> Result<NewCopy<F>, BesideFault>
        requires { length bytes.now ≡ device_bytes }
        ensures has { IfOk result (λ copy. F.honest (file_of copy.disk)
            → F.seen (file_of copy.disk) ≡ bytes.now) }
        ensures leaves { IfOk result (λ copy. F.honest (file_of copy.disk)
            → LeavesJust bytes.now (F.may_leave (file_of copy.disk))) }
    {
        let mut disk = self.disk;
        put_all(&mut disk, bytes)?;
        Ok(NewCopy { disk })
    }
}

/// Writes all bytes of a disk, so that no stop loses them.
fn put_all<D: Disk>(disk: &mut D, bytes: &[u8]) -> Result<(), DeviceFault>
    requires { length bytes.now ≡ D.size disk.old }
    ensures has { D.honest disk.old → OnOk result (D.seen disk.new ≡ bytes.now) }
    ensures leaves { D.honest disk.old → OnOk result (LeavesJust bytes.now (D.may_leave disk.new)) }
    ensures honesty { D.honest disk.new → D.honest disk.old }
{
    disk.write_at(0, bytes)?;
    disk.sync()?;
    Ok(())
}
