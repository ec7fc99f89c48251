//! The path that the system knows for an open file. A store's file has to keep its own (`docs/store.md`, "The
//! file").

ghost use Rattle.std.specs.Prelude.{◌≤◌, length};

use itoa::Buffer;
use libc::PATH_MAX;
use std::fs::File;
use std::os::fd::AsRawFd;

/// Below this folder Linux has a link for each open file of a process, named by its descriptor (`proc(5)`).
const FOLDER: &[u8; 14] = b"/proc/self/fd/";

/// A path padded with zeros. The C library needs the last one.
type CPath = [u8; PATH_MAX];

/// The path that the system has for an open file, and the link by which it gives it.
///
/// The path changes when the file or a folder above it is renamed, and ends in ` (deleted)` once the name is
/// removed.
#[derive(Drop)]
pub(crate) struct Watch {
    link: CPath,
    path: CPath,
    /// How many bytes the path has. 0 if the system has no `/proc`.
    length: usize,
    ghost fits: { length ≤ 4096 },
}

impl Watch {
    pub(crate) fn of(file: &File) -> Watch {
        let link = link_of(file);
        let mut path = [0; PATH_MAX];
        let length = read_link(&link, &mut path);
        Watch { link, path, length }
    }

    /// Whether the file still has its path. Always so if the system has no `/proc`.
    pub(crate) fn is_kept(&self) -> bool {
        let mut found = [0; PATH_MAX];
        let length = read_link(&self.link, &mut found);
        found[..length] == self.path[..self.length]
    }

    /// Whether the system has a path for the file, which then says whether the name was removed.
    pub(crate) fn has_path(&self) -> bool {
        self.length > 0
    }
}

// Reads a link into the front of the buffer. Returns how many bytes it has, 0 if it can't be read.
fn read_link(link: &CPath, buffer: &mut CPath) -> usize
    ensures { result ≤ 4096 }
{
    if link[PATH_MAX - 1] != 0 {
        return 0;
    }
    let count = unsafe { libc::readlink(link, buffer) };
    usize::try_from(count).unwrap_or(0).min(PATH_MAX)
}

// The link for an open file.
fn link_of(file: &File) -> CPath {
    let mut link = [0; PATH_MAX];
    link[..FOLDER.len()].copy_from_slice(FOLDER);
    let mut buffer = Buffer::new();
    let digits = buffer.format(file.as_raw_fd()).as_bytes();
    link[FOLDER.len()..FOLDER.len() + digits.len()].copy_from_slice(digits);
    link
}
