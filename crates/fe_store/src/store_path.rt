//! The path of a store, and all calls that find, make, name or remove a file there or next to it
//! (`docs/store.md`, "The file"). Only this file has the handle to the system's files. Each method makes one
//! of its calls, and requires the name that this call may have.

ghost use Rattle.std.specs.Prelude.{◌≡◌, ◌≢◌, ◌++◌, ℕ, string_bytes, false, IfOk, IfErr, IsErrOf, None};
ghost use Rattle.fe_disk.specs.FileDisk.{inner, file_of};
ghost use Rattle.fe_disk.specs.declared.file_fault.FileFault.TheVariants.{WrongSize, Device};
ghost use Rattle.fe_journal.specs.Layout.{device_bytes};
ghost use Rattle.fe_store.specs.Names.{new_name, kept_name, IsWhole};
ghost use Rattle.fe_store.specs.Kept.{LosesNone};
ghost use Rattle.fe_store.specs.Opening.{FindsStoreFile, FoundThere, OpensFile, TellsFile};
ghost use Rattle.fe_store.specs.Spare.{AreSpare};
ghost use Rattle.fe_store.specs.declared.fault.OpenFault.TheVariants as fault;

use crate::fault::OpenFault;
use crate::file::{disk_to_read_at, open_at};
use crate::new_file::{NewCopy, NewStore};
use fe_disk::{Disk, FileDisk, FileFault, StoreFile, add_name, remove_name};
use fe_journal::DEVICE_BYTES;
use fe_keeper::Keeper;
use fe_memory::OutOfMemory;
use std::alloc::Global;
use std::fs::{File, Metadata};
use std::os::unix::fs::MetadataExt;
use std::rt::Files;
use std::{fs, io};

const NEW: &str = ".new";

const KEPT: &str = ".before-format";

/// Opens the store in a file. With `format`, a missing file is made, and an unformatted store is formatted
/// once the bytes that this would lose are kept in `PATH.before-format`. Errors: `Device` if there is no such
/// file, another server has it locked, or a call of it or of a file next to it fails; `Size` if it has
/// another size; `Unformatted` or `Damaged` if it holds no state; `Memory` if memory runs out.
pub fn open_store<F: StoreFile + Drop, R: Files<File = File>>(
    rt: &R,
    alloc: Global,
    path: &str,
    format: bool,
) -> Result<Keeper<FileDisk<F>>, OpenFault>
    // The keeper has the state that the file at the path stood for when it was found, or that of a new store
    // if it was unformatted then and `format` is set. A fault that speaks of the file's bytes is true of
    // those that it had when it was found.
    ensures opened { IfOk result (OpensFile ⟦<FileDisk<F> as Disk>⟧ (F.is_at path.now) format) }
    ensures tells { IfErr result (TellsFile ⟦<FileDisk<F> as Disk>⟧ (F.is_at path.now)) }
    // If it was formatted, the bytes that it had are kept beside it, or need not be.
    ensures kept { IfOk result (λ keeper. FoundThere ⟦<FileDisk<F> as Disk>⟧ (F.is_at path.now)
        (λ image. LosesNone ⟦<FileDisk<F> as Disk>⟧ F.is_at path.now image keeper.state)) }
    ensures works { IfOk result (λ keeper. keeper.store.has_failed ≡ false) }
    ensures none_under_way { IfOk result (λ keeper. keeper.store.checkpoint ≡ None) }
    ensures wrong_size { (found : ℕ) → IsErrOf result (fault.Size found) → found ≢ device_bytes }
    ensures unformatted { IsErrOf result fault.Unformatted → format ≡ false }
{
    let place = StorePath { rt, path };
    open_at::<F, R>(&place, alloc, format)
}

/// The disk over the file of a store, for reading only. The file need not be writable, every write fails, and
/// others may write the file meanwhile. `Device` if there is no such file or it can't be read, and `Size` if
/// it has another size.
pub fn disk_to_read<F: StoreFile, R: Files<File = File>>(
    rt: &R,
    path: &str,
) -> Result<FileDisk<F>, OpenFault>
    ensures { FindsStoreFile (inner F.size) (F.is_at path.now) result }
{
    let place = StorePath { rt, path };
    disk_to_read_at::<F, R>(&place)
}

/// `PATH.new` leads to a file that has another name of the store's too. Only `StorePath` makes it.
#[derive(Drop)]
pub(crate) struct SecondName(());

/// The path of a store, with the leave to use the files at it and next to it.
#[derive(Drop)]
pub(crate) struct StorePath<'a, R> {
    rt: &'a R,
    path: &'a str,
}

impl<'a, R: Files<File = File>> StorePath<'a, R> {
    /// `PATH.new`, the name of a file that is being made.
    pub(crate) fn new_name(&self, alloc: Global) -> Result<String, OutOfMemory>
        ensures { IfOk result (λ name. string_bytes name ≡ new_name self.now.path.now) }
    {
        beside(alloc, self.path, NEW)
    }

    /// `PATH.before-format`, the name of the file that keeps the bytes which a formatting replaced.
    pub(crate) fn kept_name(&self, alloc: Global) -> Result<String, OutOfMemory>
        ensures { IfOk result (λ name. string_bytes name ≡ kept_name self.now.path.now) }
    {
        beside(alloc, self.path, KEPT)
    }

    /// The disk over the file at the path.
    pub(crate) fn disk<F: StoreFile>(&self) -> Result<FileDisk<F>, FileFault>
        ensures found { IfOk result (λ disk. F.is_at self.now.path.now (file_of disk)) }
        ensures size { IfOk result (λ disk. F.size (file_of disk) ≡ device_bytes) }
        ensures wrong { (found : ℕ) → IsErrOf result (WrongSize found) → found ≢ device_bytes }
    {
        FileDisk::at(self.rt, self.path, DEVICE_BYTES)
    }

    /// The disk over the file of this name, `PATH.new`.
    pub(crate) fn new_disk<F: StoreFile>(
        &self,
        new: &str,
        size: usize,
    ) -> Result<FileDisk<F>, FileFault>
        requires new { new.now ≡ new_name self.now.path.now }
        ensures found { IfOk result (λ disk. F.is_at new.now (file_of disk)) }
        ensures size { IfOk result (λ disk. F.size (file_of disk) ≡ size) }
    {
        FileDisk::at(self.rt, new, size)
    }

    /// The disk over the file of this name, for reading only.
    pub(crate) fn disk_to_read<F: StoreFile>(&self, name: &str) -> Result<FileDisk<F>, FileFault>
        ensures found { IfOk result (λ disk. F.is_at name.now (file_of disk)) }
        ensures size { IfOk result (λ disk. F.size (file_of disk) ≡ device_bytes) }
        ensures wrong { (found : ℕ) → IsErrOf result (WrongSize found) → found ≢ device_bytes }
    {
        FileDisk::read_only(self.rt, name, DEVICE_BYTES)
    }

    /// The disk over the store's file, for reading only.
    pub(crate) fn store_to_read<F: StoreFile>(&self) -> Result<FileDisk<F>, FileFault>
        ensures found { IfOk result (λ disk. F.is_at self.now.path.now (file_of disk)) }
        ensures size { IfOk result (λ disk. F.size (file_of disk) ≡ device_bytes) }
        ensures wrong { (found : ℕ) → IsErrOf result (WrongSize found) → found ≢ device_bytes }
    {
        self.disk_to_read(self.path)
    }

    /// The file that this name leads to, which is not followed if it is a symbolic link.
    pub(crate) fn found(&self, name: &str) -> io::Result<Metadata> {
        fs::symlink_metadata(self.rt, name)
    }

    /// Whether `PATH.new`, which leads to this file, is a second name of the store or of the kept bytes.
    pub(crate) fn second_name(&self, kept: &str, file: &Metadata) -> Option<SecondName> {
        if is_at(self.rt, self.path, file) || is_at(self.rt, kept, file) {
            Some(SecondName(()))
        } else {
            None
        }
    }

    /// Makes a file of a store's size, which is `PATH.new`.
    pub(crate) fn create<F: StoreFile>(&self, new: &str) -> Result<FileDisk<F>, FileFault>
        requires new { new.now ≡ new_name self.now.path.now }
        ensures size { IfOk result (λ disk. F.size (file_of disk) ≡ device_bytes) }
        ensures refused { IfErr result (λ fault. fault ≡ Device) }
    {
        FileDisk::create(self.rt, new, DEVICE_BYTES)
    }

    /// Gives the path to the file `PATH.new`, which has a whole store, and removes its old name. `false` if a
    /// file has the path already; this one then has no name.
    pub(crate) fn give_path<F: StoreFile>(&self, new: &str, store: &NewStore<F>) -> io::Result<bool>
        requires new { new.now ≡ new_name self.now.path.now }
        requires whole { IsWhole ⟦<FileDisk<F> as Disk>⟧ store.now.keeper }
    {
        let _store = store;
        renamed(self.rt, new, self.path)
    }

    /// Gives `PATH.before-format` to the file `PATH.new`, which has the bytes to keep, as `give_path` does.
    pub(crate) fn give_kept<F: StoreFile>(
        &self,
        new: &str,
        kept: &str,
        copy: &NewCopy<F>,
    ) -> io::Result<bool>
        requires new { new.now ≡ new_name self.now.path.now }
        requires kept { kept.now ≡ kept_name self.now.path.now }
    {
        let _copy = copy;
        renamed(self.rt, new, kept)
    }

    /// Removes `PATH.new`, a second name of a file that keeps its other one.
    pub(crate) fn remove_second(&self, new: &str, second: SecondName) -> io::Result<()>
        requires new { new.now ≡ new_name self.now.path.now }
    {
        let _second = second;
        remove_name(self.rt, new)
    }

    /// Removes the file `PATH.new`, which is locked and has only bytes that may be overwritten.
    pub(crate) fn remove_spare<F: StoreFile>(
        &self,
        new: &str,
        disk: &FileDisk<F>,
        others: &[u8],
    ) -> io::Result<()>
        requires new { new.now ≡ new_name self.now.path.now }
        requires spare { FoundThere ⟦<FileDisk<F> as Disk>⟧ (F.is_at new.now)
            (λ bytes. AreSpare bytes others.now) }
    {
        let _disk = disk;
        let _others = others;
        remove_name(self.rt, new)
    }
}

/// Gives the file this name, and removes its `PATH.new`.
fn renamed<R: Files<File = File>>(rt: &R, new: &str, name: &str) -> io::Result<bool> {
    let given = add_name(rt, new, name);
    remove_name(rt, new)?;
    given
}

/// Whether the path leads to this file.
fn is_at<R: Files<File = File>>(rt: &R, path: &str, file: &Metadata) -> bool {
    match fs::metadata(rt, path) {
        Ok(found) => found.dev() == file.dev() && found.ino() == file.ino(),
        Err(_) => false,
    }
}

fn beside(alloc: Global, path: &str, end: &str) -> Result<String, OutOfMemory>
    ensures { IfOk result (λ name. string_bytes name ≡ path.now ++ end.now) }
{
    Ok(format!(in alloc; "{path}{end}")?)
}
