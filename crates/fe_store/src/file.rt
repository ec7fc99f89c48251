//! Opening the store in a file, which is made or formatted if that is asked for (`docs/store.md`, "The
//! file").

ghost use Rattle.std.specs.Prelude.{◌≡◌, ◌≢◌, ℕ, false, IfOk, IfErr, IsErrOf, None};
ghost use Rattle.fe_disk.specs.FileDisk.{inner, file_of};
ghost use Rattle.fe_journal.specs.Layout.{device_bytes};
ghost use Rattle.fe_store.specs.Kept.{LosesNone};
ghost use Rattle.fe_store.specs.Opening.{FindsStoreFile, FoundThere, IsOpenedAs, OpensFile, TellsFile};
ghost use Rattle.fe_store.specs.Opening.{TellsImage};
ghost use Rattle.fe_store.specs.declared.fault.OpenFault.TheVariants as fault;

use crate::beside::{keep, make, tidy};
use crate::fault::OpenFault;
use crate::opening::open_on;
use crate::store_path::StorePath;
use fe_disk::{Disk, FileDisk, FileFault, StoreFile};
use fe_keeper::Keeper;
use std::alloc::Global;
use std::fs::File;
use std::rt::Files;

/// Opens the store in the file at the path, as `open_store` says.
pub(crate) fn open_at<F: StoreFile + Drop, R: Files<File = File>>(
    place: &StorePath<'_, R>,
    alloc: Global,
    format: bool,
) -> Result<Keeper<FileDisk<F>>, OpenFault>
    ensures opened { IfOk result (OpensFile ⟦<FileDisk<F> as Disk>⟧ (F.is_at place.now.path.now) format) }
    ensures tells { IfErr result (TellsFile ⟦<FileDisk<F> as Disk>⟧ (F.is_at place.now.path.now)) }
    ensures kept { IfOk result (λ keeper. FoundThere ⟦<FileDisk<F> as Disk>⟧ (F.is_at place.now.path.now)
        (λ image. LosesNone ⟦<FileDisk<F> as Disk>⟧ F.is_at place.now.path.now image keeper.state)) }
    ensures works { IfOk result (λ keeper. keeper.store.has_failed ≡ false) }
    ensures none_under_way { IfOk result (λ keeper. keeper.store.checkpoint ≡ None) }
    ensures wrong_size { (found : ℕ) → IsErrOf result (fault.Size found) → found ≢ device_bytes }
    ensures unformatted { IsErrOf result fault.Unformatted → format ≡ false }
{
    let disk = disk_at::<F, R>(place, alloc, format)?;
    tidy::<F, R>(place, alloc);
    open_found(place, alloc, format, disk)
}

/// Opens the store in the file that was found.
fn open_found<F: StoreFile + Drop, R: Files<File = File>>(
    place: &StorePath<'_, R>,
    alloc: Global,
    format: bool,
    disk: FileDisk<F>,
) -> Result<Keeper<FileDisk<F>>, OpenFault>
    requires { F.size (file_of disk) ≡ device_bytes }
    ensures opened { F.honest (file_of disk)
        → IfOk result (IsOpenedAs ⟦<FileDisk<F> as Disk>⟧ (F.seen (file_of disk)) format) }
    ensures tells { F.honest (file_of disk) → IfErr result (λ why. TellsImage why (F.seen (file_of disk))) }
    ensures kept { F.honest (file_of disk) → IfOk result
        (λ keeper. LosesNone ⟦<FileDisk<F> as Disk>⟧ F.is_at place.now.path.now
        (F.seen (file_of disk)) keeper.state) }
    ensures works { IfOk result (λ keeper. keeper.store.has_failed ≡ false) }
    ensures none_under_way { IfOk result (λ keeper. keeper.store.checkpoint ≡ None) }
    ensures sized { (found : ℕ) → IsErrOf result (fault.Size found) → ⊥ }
    ensures unformatted { IsErrOf result fault.Unformatted → format ≡ false }
{
    match open_on(alloc, disk, false) {
        Ok(keeper) => Ok(keeper),
        Err((OpenFault::Unformatted, disk)) if format => {
            let mut disk = disk;
            keep(place, alloc, &mut disk)?;
            match open_on(alloc, disk, true) {
                Ok(keeper) => Ok(keeper),
                Err((fault, _)) => Err(fault),
            }
        }
        Err((fault, _)) => Err(fault),
    }
}

/// The disk over the file of a store. With `format`, a missing file is made.
fn disk_at<F: StoreFile + Drop, R: Files<File = File>>(
    place: &StorePath<'_, R>,
    alloc: Global,
    format: bool,
) -> Result<FileDisk<F>, OpenFault>
    ensures { FindsStoreFile (inner F.size) (F.is_at place.now.path.now) result }
{
    match place.disk() {
        Err(FileFault::Missing) if format => {
            make::<F, R>(place, alloc)?;
            Ok(place.disk()?)
        }
        found => Ok(found?),
    }
}

/// The disk over the file of a store, for reading only.
pub(crate) fn disk_to_read_at<F: StoreFile, R: Files<File = File>>(
    place: &StorePath<'_, R>,
) -> Result<FileDisk<F>, OpenFault>
    ensures { FindsStoreFile (inner F.size) (F.is_at place.now.path.now) result }
{
    Ok(place.store_to_read()?)
}
