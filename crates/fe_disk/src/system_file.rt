//! A file of the operating system as a disk (`docs/store.md`, "The file"). A disk is honest if it does what
//! its model says (`docs/model.md`, "The disk").

ghost use Rattle.std.specs.Prelude.{◌≡◌, ◌≢◌, ◌-◌, ◌<◌, ℕ, [], IfOk, IsErrOf};
ghost use Rattle.fe_disk.specs.declared.file_fault.FileFault.TheVariants.{WrongSize, Device};

use crate::faults::{count, fault};
use crate::names::sync_folder;
use crate::watch::Watch;
use crate::{Calls, DeviceFault, Disk, FileFault, StoreFile};
use std::fs::{File, OpenOptions};
use std::io::{ErrorKind, Write};
use std::os::fd::AsRawFd;
use std::os::unix::fs::{FileExt, MetadataExt, OpenOptionsExt};
use std::rt::Files;
use std::{fs, io};

/// How many zeros are written at a time.
const ZEROS: usize = 4096;

/// The descriptors below this are the standard streams.
const STREAMS: i32 = 3;

/// The mode of a new file: only its owner may read and write it.
const MODE: u32 = 0o600;

/// A file of a fixed size. Each read and write goes straight to the file at its offset, without a buffer, and
/// a sync puts the file's bytes on its device.
///
/// The first sync that succeeds also makes the system forget what it holds of the file in memory, so that
/// later reads come from the device. After a sync that failed, in this process or an earlier one, Linux
/// treats pages as written that are not on the device, and would give their bytes to every reader until it
/// needs the memory.
///
/// One that writes holds an advisory lock on its file for as long as it lives, so no other writes the file
/// meanwhile.
///
/// No contract can say what the system gives or keeps, so it is not honest. What is proved of a store is
/// proved for every file that is (`StoreFile`).
#[derive(Drop)]
pub struct SystemFile {
    file: File,
    size: usize,
    calls: Calls,
    failures: u64,
    // Whether a sync succeeded. Only the first one makes the system forget what it holds of the file in
    // memory.
    is_settled: bool,
    // The path that the file has to keep, if it is written.
    watch: Option<Watch>,
}

impl SystemFile {
    ghost use Rattle.fe_disk.specs.SystemFile.{file_size, fault_count};

    // The disk over a file that was opened by a path.
    fn over<R: Files<File = File>>(
        rt: &R,
        path: &str,
        file: io::Result<File>,
        size: usize,
        is_watched: bool,
    ) -> Result<SystemFile, FileFault>
        ensures size { IfOk result (λ file. file_size file ≡ size) }
        ensures failures { IfOk result (λ file. fault_count file ≡ 0) }
        ensures wrong { (found : ℕ) → IsErrOf result (WrongSize found) → found ≢ size }
    {
        let Ok(file) = file else {
            return Err(FileFault::Device);
        };
        let Ok(metadata) = file.metadata() else {
            return Err(FileFault::Device);
        };
        if !metadata.is_file() {
            return Err(FileFault::Device);
        }
        let found = metadata.len();
        if found != size as u64 {
            return Err(FileFault::WrongSize { found });
        }
        let watch = is_watched.then(|| Watch::of(&file));
        // A file that was replaced or removed meanwhile never changes the path that the system has for it, so
        // `Watch` would not notice.
        if is_watched && !is_at(rt, path, &file) {
            return Err(FileFault::Device);
        }
        Ok(SystemFile {
            file,
            size,
            calls: Calls::NONE,
            failures: 0,
            is_settled: false,
            watch,
        })
    }

    // Asks by `lseek`, since a file whose times were asked for gets new ones at its next write, and a sync
    // may have to write those too.
    fn has_size(&self) -> bool {
        match u64::try_from(libc::lseek(self.file.as_raw_fd(), 0, libc::SEEK_END)) {
            Ok(found) => found == self.size as u64,
            Err(_) => false,
        }
    }

    fn has_name(&self) -> bool {
        match self.file.metadata() {
            Ok(found) => found.nlink() > 0,
            Err(_) => false,
        }
    }
}

// Whether the path leads to the file, which still has a name.
fn is_at<R: Files<File = File>>(rt: &R, path: &str, file: &File) -> bool {
    match (fs::metadata(rt, path), file.metadata()) {
        (Ok(found), Ok(own)) => {
            found.dev() == own.dev() && found.ino() == own.ino() && own.nlink() > 0
        }
        _ => false,
    }
}

// Why a file was not opened.
fn unopened(error: &io::Error) -> FileFault
    ensures { (found : ℕ) → result ≢ WrongSize found }
{
    match error.kind() {
        ErrorKind::NotFound => FileFault::Missing,
        _ => FileFault::Device,
    }
}

fn made<R: Files<File = File>>(rt: &R, path: &str, size: u64) -> io::Result<File> {
    let mut options = OpenOptions::new();
    options.read(true).write(true).create_new(true).mode(MODE);
    let file = locked(options.open(rt, path)?)?;
    fill(&file, size)?;
    file.sync_all()?;
    sync_folder(rt, path)?;
    Ok(file)
}

// Writes this many zeros. A file that only has the length would have holes, and a sync of what is written
// into one later has to find room for it.
fn fill(mut file: &File, size: u64) -> io::Result<()> {
    let zeros = [0; ZEROS];
    for _k in 0..size / ZEROS as u64 {
        file.write_all(&zeros)?;
    }
    file.write_all(&zeros[..(size % ZEROS as u64) as usize])
}

// Locks the file, so that no other disk writes it meanwhile.
fn locked(file: File) -> io::Result<File> {
    let file = above_streams(file)?;
    file.try_lock()?;
    Ok(file)
}

// The file with a descriptor above those of the standard streams. If one of those is closed, what is meant
// for it must not be written into the file.
fn above_streams(file: File) -> io::Result<File> {
    if file.as_raw_fd() < STREAMS {
        file.try_clone()
    } else {
        Ok(file)
    }
}

// Syncs the file. The first sync also makes the system forget what it holds of the file in memory, which is
// all on the device then.
fn settled(file: &File, is_settled: bool) -> io::Result<()> {
    file.sync_data()?;
    if is_settled {
        return Ok(());
    }
    match libc::posix_fadvise(file.as_raw_fd(), 0, 0, libc::POSIX_FADV_DONTNEED) {
        0 => Ok(()),
        error => Err(io::Error::from_raw_os_error(error)),
    }
}

impl Disk for SystemFile {
    ghost use Rattle.fe_disk.specs.SystemFile.{file_size, fault_count, calls_of};

    ghost size = { file_size };

    ghost failures = { fault_count };

    ghost calls = { calls_of };

    ghost honest = { λ disk. ⊥ };

    ghost seen = { λ disk. [] };

    ghost may_leave = { λ disk image. ⊥ };

    ghost moment = { λ disk. 0 };

    ghost left_since = { λ disk t image. ⊥ };

    ghost seen_is_image = { λ disk honest. absurd honest };

    ghost left_is_image = { λ disk t image honest left. absurd honest };

    ghost seen_may_stay = { λ disk honest. absurd honest };

    ghost counts_now = { λ disk t image honest now may. absurd honest };

    ghost only_now = { λ disk image honest left. absurd honest };

    fn size(&self) -> usize {
        self.size
    }

    fn failures(&self) -> u64 {
        self.failures
    }

    fn read_at(&mut self, at: usize, buffer: &mut [u8]) -> Result<(), DeviceFault> {
        if self.failures == u64::MAX || self.calls.reads == u64::MAX {
            return Err(fault(&mut self.failures));
        }
        self.calls.reads += 1;
        let outcome = self.file.read_exact_at(buffer, at as u64);
        count(&mut self.failures, outcome)
    }

    fn write_at(&mut self, at: usize, bytes: &[u8]) -> Result<(), DeviceFault> {
        if self.failures == u64::MAX || self.calls.writes == u64::MAX {
            return Err(fault(&mut self.failures));
        }
        self.calls.writes += 1;
        let outcome = self.file.write_all_at(bytes, at as u64);
        count(&mut self.failures, outcome)
    }

    fn sync(&mut self) -> Result<(), DeviceFault> {
        if self.failures == u64::MAX || self.calls.syncs == u64::MAX {
            return Err(fault(&mut self.failures));
        }
        self.calls.syncs += 1;
        let outcome = settled(&self.file, self.is_settled);
        if outcome.is_ok() {
            self.is_settled = true;
        }
        count(&mut self.failures, outcome)
    }

    fn rely_on(&mut self, _at: usize, _bytes: &[u8]) {}
}

impl StoreFile for SystemFile {
    ghost use Rattle.std.specs.Prelude.{⊤};

    ghost gives = { λ file. ⊥ };

    ghost contents = { λ file. [] };

    ghost is_at = { λ path file. ⊤ };

    fn create<R: Files<File = File>>(
        rt: &R,
        path: &str,
        size: usize,
    ) -> Result<SystemFile, FileFault> {
        match SystemFile::over(rt, path, made(rt, path, size as u64), size, true) {
            Ok(file) => Ok(file),
            Err(_) => Err(FileFault::Device),
        }
    }

    fn at<R: Files<File = File>>(rt: &R, path: &str, size: usize) -> Result<SystemFile, FileFault> {
        match OpenOptions::new().read(true).write(true).open(rt, path) {
            Ok(file) => SystemFile::over(rt, path, locked(file), size, true),
            Err(error) => Err(unopened(&error)),
        }
    }

    fn read_only<R: Files<File = File>>(
        rt: &R,
        path: &str,
        size: usize,
    ) -> Result<SystemFile, FileFault> {
        // Opening a pipe for reading alone would wait for a writer.
        match fs::metadata(rt, path) {
            Ok(metadata) if metadata.is_file() => {}
            Ok(_) => return Err(FileFault::Device),
            Err(error) => return Err(unopened(&error)),
        }
        match File::open(rt, path) {
            Ok(file) => SystemFile::over(rt, path, above_streams(file), size, false),
            Err(error) => Err(unopened(&error)),
        }
    }

    fn read_back(&self, at: usize, buffer: &mut [u8]) -> io::Result<()> {
        self.file.read_exact_at(buffer, at as u64)
    }

    fn is_there(&self) -> bool {
        let Some(watch) = &self.watch else {
            return true;
        };
        self.has_size() && watch.is_kept() && (watch.has_path() || self.has_name())
    }
}
