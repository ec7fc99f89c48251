//! The disk of a store that is a file (`docs/store.md`, "The file").

ghost use Rattle.std.specs.Prelude.{◌≡◌, ◌≢◌, ◌+◌, ◌≤◌, ℕ, length, IfOk, IfErr, IsErrOf, OnOk, IsTrue};
ghost use Rattle.fe_disk.specs.Disk.{after_write, IsTorn, Follows, EndsCall};
ghost use Rattle.fe_disk.specs.Runs.{HasElapsed};
ghost use Rattle.fe_disk.specs.FileDisk.{file_of, samples_of, fault_count, inner, inner_holds};
ghost use Rattle.fe_disk.specs.within.Samples.{Holds, StaysRight};
ghost use Rattle.fe_disk.specs.declared.file_fault.FileFault.TheVariants.{WrongSize, Device};

use crate::faults::{count, fault};
use crate::sample::LONG;
use crate::samples::Samples;
use crate::{DeviceFault, Disk, FileFault, StoreFile};
use std::fs::File;
use std::rt::Files;

/// A disk over a file that other programs may write too.
///
/// A long write (one of 16 bytes or more, such as that of a group) is made only while the file still has what
/// was written or read there before, as far as `Samples` knows it: this finds a program that wrote another
/// file over it, but no change elsewhere. A sync behind a short write (such as a gate, the byte that makes a
/// group count) succeeds only if the file afterwards still has its size and its path: what is written into a
/// file that was cut, renamed, replaced or removed is lost.
///
/// It is honest if its file is, and behaves as any disk then: it never fails because of itself.
#[derive(Drop)]
pub struct FileDisk<D> {
    file: D,
    failures: u64,
    // The bytes that the file has to have.
    samples: Samples,
}

impl<D: StoreFile> FileDisk<D> {
    /// The disk over a new file of zeros, as `StoreFile::create` makes it.
    pub fn create<R: Files<File = File>>(
        rt: &R,
        path: &str,
        size: usize,
    ) -> Result<FileDisk<D>, FileFault>
        ensures size { IfOk result (λ disk. D.size (file_of disk) ≡ size) }
        ensures refused { IfErr result (λ fault. fault ≡ Device) }
    {
        Ok(FileDisk::over(D::create(rt, path, size)?))
    }

    /// The disk over the file at this path, as `StoreFile::at` opens it.
    pub fn at<R: Files<File = File>>(
        rt: &R,
        path: &str,
        size: usize,
    ) -> Result<FileDisk<D>, FileFault>
        ensures found { IfOk result (λ disk. D.is_at path.now (file_of disk)) }
        ensures size { IfOk result (λ disk. D.size (file_of disk) ≡ size) }
        ensures wrong { (found : ℕ) → IsErrOf result (WrongSize found) → found ≢ size }
    {
        Ok(FileDisk::over(D::at(rt, path, size)?))
    }

    /// The disk over the file at this path, for reading only, as `StoreFile::read_only` opens it.
    pub fn read_only<R: Files<File = File>>(
        rt: &R,
        path: &str,
        size: usize,
    ) -> Result<FileDisk<D>, FileFault>
        ensures found { IfOk result (λ disk. D.is_at path.now (file_of disk)) }
        ensures size { IfOk result (λ disk. D.size (file_of disk) ≡ size) }
        ensures wrong { (found : ℕ) → IsErrOf result (WrongSize found) → found ≢ size }
    {
        Ok(FileDisk::over(D::read_only(rt, path, size)?))
    }

    fn over(file: D) -> FileDisk<D>
        ensures { file_of result ≡ file }
    {
        let failures = file.failures();
        FileDisk {
            file,
            failures,
            samples: Samples::NONE,
        }
    }

    // Whether this many bytes may be written: before a long write the file must still have the samples, so
    // that what another program put there is not overwritten.
    fn may_write(&mut self, count: usize) -> bool
        ensures kept { D.gives self.old.file → IsTrue result → 16 ≤ count
            → Holds (D.contents self.old.file) self.old.samples.kept }
        ensures opened { D.gives self.old.file → IsTrue result → 16 ≤ count
            → Holds (D.contents self.old.file) self.old.samples.opened }
        ensures same { (self.new.file ≡ self.old.file) × (self.new.failures ≡ self.old.failures) }
        ensures samples { (self.new.samples.kept ≡ self.old.samples.kept)
            × (self.new.samples.written ≡ self.old.samples.written) }
    {
        count < LONG || self.samples.confirm(&self.file)
    }
}

impl<D: StoreFile> Disk for FileDisk<D> {
    ghost size = { inner D.size };

    ghost failures = { fault_count };

    ghost calls = { inner D.calls };

    ghost honest = { inner_holds D.honest };

    ghost seen = { λ disk. D.seen (file_of disk) };

    ghost may_leave = { λ disk. D.may_leave (file_of disk) };

    ghost moment = { λ disk. D.moment (file_of disk) };

    ghost left_since = { λ disk. D.left_since (file_of disk) };

    ghost seen_is_image = { λ disk. D.seen_is_image (file_of disk) };

    ghost left_is_image = { λ disk. D.left_is_image (file_of disk) };

    ghost seen_may_stay = { λ disk. D.seen_may_stay (file_of disk) };

    ghost counts_now = { λ disk. D.counts_now (file_of disk) };

    ghost only_now = { λ disk. D.only_now (file_of disk) };

    fn size(&self) -> usize {
        self.file.size()
    }

    fn failures(&self) -> u64 {
        self.failures
    }

    fn read_at(&mut self, at: usize, buffer: &mut [u8]) -> Result<(), DeviceFault> {
        if self.failures == u64::MAX {
            return Err(fault(&mut self.failures));
        }
        let outcome = self.file.read_at(at, buffer);
        count(&mut self.failures, outcome)
    }

    fn write_at(&mut self, at: usize, bytes: &[u8]) -> Result<(), DeviceFault>
        requires { at + length bytes.now ≤ D.size (file_of self.old) }
        ensures written { D.honest (file_of self.old)
            → OnOk result (D.seen (file_of self.new) ≡ after_write (D.seen (file_of self.old)) at bytes.now) }
        ensures torn { D.honest (file_of self.old)
            → IsTorn at (length bytes.now) (D.seen (file_of self.old)) (D.seen (file_of self.new)) }
        ensures stop { D.honest (file_of self.old)
            → Follows (IsTorn at (length bytes.now)) (D.may_leave (file_of self.old))
            (D.may_leave (file_of self.new)) }
        ensures time { D.honest (file_of self.old) → HasElapsed D.Disk (file_of self.old) (file_of self.new) }
        ensures device { EndsCall (inner D.size) fault_count (inner D.calls) (inner_holds D.honest)
            0 1 0 result self.old self.new }
        // A long write succeeds only if the file still had the samples before it, and a write keeps them
        // right.
        ensures kept { D.gives (file_of self.old) → OnOk result (16 ≤ length bytes.now
            → Holds (D.contents (file_of self.old)) (samples_of self.old).kept) }
        ensures opened { D.gives (file_of self.old) → OnOk result (16 ≤ length bytes.now
            → Holds (D.contents (file_of self.old)) (samples_of self.old).opened) }
        ensures noted { OnOk result (StaysRight at bytes.now (samples_of self.old).kept
            (samples_of self.new).kept) }
    {
        let _size = self.file.size();
        if self.failures == u64::MAX || !self.may_write(bytes.len()) {
            return Err(fault(&mut self.failures));
        }
        let outcome = self.file.write_at(at, bytes);
        self.samples.after_write(at, bytes, outcome.is_ok());
        count(&mut self.failures, outcome)
    }

    fn sync(&mut self) -> Result<(), DeviceFault> {
        if self.failures == u64::MAX {
            return Err(fault(&mut self.failures));
        }
        let outcome = self.file.sync();
        let is_lost = self.samples.is_short && !self.file.is_there();
        if outcome.is_err() || is_lost {
            return Err(fault(&mut self.failures));
        }
        self.samples.keep();
        Ok(())
    }

    fn rely_on(&mut self, at: usize, bytes: &[u8]) {
        let _size = self.file.size();
        self.file.rely_on(at, bytes);
        self.samples.rely_on(at, bytes);
    }
}
