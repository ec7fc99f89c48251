//! The files next to a store (`docs/store.md`, "The file"): `PATH.new`, which is being made, and
//! `PATH.before-format`, the bytes that a formatting replaced.
//!
//! A server names `PATH.new`, or removes one that is no second name of another file, only while it has the
//! lock of that file and has seen that the name leads to it. So two servers that start at once never remove
//! or name each other's file.

ghost use Rattle.std.specs.Prelude.{◌≡◌, ◌↔◌, length, IfOk, OnOk};
ghost use Rattle.fe_disk.specs.FileDisk.{file_of};
ghost use Rattle.fe_journal.specs.Layout.{device_bytes};
ghost use Rattle.fe_store.specs.Kept.{IsCopied, IsKept};
ghost use Rattle.fe_store.specs.Names.{new_name, kept_name};
ghost use Rattle.fe_store.specs.Opening.{FoundThere};
ghost use Rattle.fe_store.specs.Spare.{AreSpare};

use crate::fault::BesideFault;
use crate::fresh::is_spare;
use crate::new_file::NewFile;
use crate::store_path::StorePath;
use fe_disk::{Disk, FileDisk, StoreFile};
use fe_journal::{DEVICE_BYTES, buffer_of};
use std::alloc::Global;
use std::fs::File;
use std::io::ErrorKind;
use std::rt::Files;

/// Makes a new store. It is formatted under a temporary name in the same folder and then gets the path, so it
/// appears there whole or not at all. If a file has the path by then, that file stays as it is.
pub(crate) fn make<F: StoreFile + Drop, R: Files<File = File>>(
    place: &StorePath<'_, R>,
    alloc: Global,
) -> Result<(), BesideFault> {
    let new = place.new_name(alloc)?;
    clear::<F, R>(place, alloc, new.as_str(), &[])?;
    let store = NewFile::<F>::create(place, new.as_str())?.format(alloc)?;
    let named = place.give_path(new.as_str(), &store);
    drop(store);
    named?;
    Ok(())
}

/// Keeps the bytes of an unformatted store in a file next to it, so that formatting loses nothing. Bytes that
/// are zero, that formatting writes, or that are kept there already need no file. If a file with other bytes
/// is there, it stays and the call fails.
pub(crate) fn keep<F: StoreFile + Drop, R: Files<File = File>>(
    place: &StorePath<'_, R>,
    alloc: Global,
    disk: &mut FileDisk<F>,
) -> Result<(), BesideFault>
    requires size { F.size (file_of disk.old) ≡ device_bytes }
    ensures size { F.size (file_of disk.new) ≡ device_bytes }
    ensures same { F.honest (file_of disk.old) → F.seen (file_of disk.new) ≡ F.seen (file_of disk.old) }
    ensures honesty { F.honest (file_of disk.new) ↔ F.honest (file_of disk.old) }
    ensures kept { F.honest (file_of disk.old)
        → OnOk result (IsKept ⟦<FileDisk<F> as Disk>⟧ F.is_at place.now.path.now
        (F.seen (file_of disk.old))) }
{
    let bytes = bytes_of(alloc, disk)?;
    if is_spare(bytes.as_slice(), &[]) {
        return Ok(());
    }
    let kept = place.kept_name(alloc)?;
    match place.found(kept.as_str()) {
        Ok(_) => compare::<F, R>(place, alloc, kept.as_str(), bytes.as_slice()),
        Err(error) if error.kind() == ErrorKind::NotFound => {
            copy::<F, R>(place, alloc, kept.as_str(), bytes.as_slice())
        }
        Err(_) => Err(BesideFault::Device),
    }
}

/// Removes the `PATH.new` that a start left when it was cut off: a second name of the store or of the kept
/// bytes, or a file of its own that is not locked and holds only bytes that may be overwritten. Any other
/// file stays.
pub(crate) fn tidy<F: StoreFile + Drop, R: Files<File = File>>(
    place: &StorePath<'_, R>,
    alloc: Global,
) {
    if let Ok(new) = place.new_name(alloc) {
        let _ = clear::<F, R>(place, alloc, new.as_str(), &[]);
    }
}

/// Removes `PATH.new` as `tidy` does, but fails if a file stays. A byte that `others` has at the same place
/// may be overwritten too.
fn clear<F: StoreFile + Drop, R: Files<File = File>>(
    place: &StorePath<'_, R>,
    alloc: Global,
    new: &str,
    others: &[u8],
) -> Result<(), BesideFault>
    requires { new.now ≡ new_name place.now.path.now }
{
    let found = match place.found(new) {
        Ok(found) if found.is_file() && found.len() <= DEVICE_BYTES as u64 => found,
        Err(error) if error.kind() == ErrorKind::NotFound => return Ok(()),
        _ => return Err(BesideFault::Device),
    };
    let kept = place.kept_name(alloc)?;
    if let Some(second) = place.second_name(kept.as_str(), &found) {
        place.remove_second(new, second)?;
        return Ok(());
    }
    let mut disk = place.new_disk::<F>(new, found.len() as usize)?;
    let bytes = synced_bytes(alloc, &mut disk)?;
    if !is_spare(bytes.as_slice(), others) {
        return Err(BesideFault::Device);
    }
    let removed = place.remove_spare(new, &disk, others);
    drop(disk);
    removed?;
    Ok(())
}

/// Keeps these bytes in a new file, which appears whole or not at all. Fails if a file has its name by then.
fn copy<F: StoreFile + Drop, R: Files<File = File>>(
    place: &StorePath<'_, R>,
    alloc: Global,
    kept: &str,
    bytes: &[u8],
) -> Result<(), BesideFault>
    requires kept { kept.now ≡ kept_name place.now.path.now }
    requires whole { length bytes.now ≡ device_bytes }
    ensures { OnOk result (IsCopied ⟦<FileDisk<F> as Disk>⟧ bytes.now) }
{
    let new = place.new_name(alloc)?;
    clear::<F, R>(place, alloc, new.as_str(), bytes)?;
    let copy = NewFile::<F>::create(place, new.as_str())?.fill(bytes)?;
    let named = place.give_kept(new.as_str(), kept, &copy);
    drop(copy);
    match named {
        Ok(true) => Ok(()),
        _ => Err(BesideFault::Device),
    }
}

/// Fails unless the file keeps these bytes, apart from bytes that may be overwritten.
fn compare<F: StoreFile + Drop, R: Files<File = File>>(
    place: &StorePath<'_, R>,
    alloc: Global,
    kept: &str,
    bytes: &[u8],
) -> Result<(), BesideFault>
    ensures { OnOk result (FoundThere ⟦<FileDisk<F> as Disk>⟧ (F.is_at kept.now) (AreSpare bytes.now)) }
{
    let mut disk = place.disk_to_read::<F>(kept)?;
    let others = bytes_of(alloc, &mut disk)?;
    if is_spare(bytes, others.as_slice()) {
        Ok(())
    } else {
        Err(BesideFault::Device)
    }
}

/// All bytes of a disk that has the size of a store.
fn bytes_of<D: Disk>(alloc: Global, disk: &mut D) -> Result<Vec<u8>, BesideFault>
    requires { D.size disk.old ≡ device_bytes }
    ensures bytes { D.honest disk.old → IfOk result (λ bytes. bytes.items ≡ D.seen disk.old) }
    ensures whole { IfOk result (λ bytes. length bytes.items ≡ device_bytes) }
    ensures same { D.honest disk.old → D.seen disk.new ≡ D.seen disk.old }
    ensures size { D.size disk.new ≡ D.size disk.old }
    ensures honesty { D.honest disk.new ↔ D.honest disk.old }
{
    let mut bytes = buffer_of(alloc, DEVICE_BYTES)?;
    disk.read_at(0, &mut bytes)?;
    Ok(bytes)
}

/// All bytes of a disk, after a sync.
fn synced_bytes<D: Disk>(alloc: Global, disk: &mut D) -> Result<Vec<u8>, BesideFault>
    ensures { D.honest disk.old → IfOk result (λ bytes. bytes.items ≡ D.seen disk.old) }
{
    disk.sync()?;
    let mut bytes = buffer_of(alloc, disk.size())?;
    disk.read_at(0, &mut bytes)?;
    Ok(bytes)
}
