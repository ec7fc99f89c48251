//! Names of files. A stop, also a loss of power, during a call leaves the name there or not, and nothing in
//! between (`docs/store.md`, "The file").

use std::fs::File;
use std::io::ErrorKind;
use std::path::Path;
use std::rt::Files;
use std::{fs, io};

/// Makes `name`, a path, one more name (a hard link) of the file at `path`, and syncs its folder. `false` if
/// that name is taken already; nothing changes then. After an error the name may be there: the sync may have
/// failed.
pub fn add_name<R: Files<File = File>>(rt: &R, path: &str, name: &str) -> io::Result<bool> {
    match fs::hard_link(rt, path, name) {
        Ok(()) => {
            sync_folder(rt, name)?;
            Ok(true)
        }
        Err(error) if error.kind() == ErrorKind::AlreadyExists => Ok(false),
        Err(error) => Err(error),
    }
}

/// Removes a name of a file, and syncs its folder. After an error the name may be gone.
pub fn remove_name<R: Files<File = File>>(rt: &R, name: &str) -> io::Result<()> {
    fs::remove_file(rt, name)?;
    sync_folder(rt, name)
}

/// Syncs the folder that has this path's name, so that the names in it are on the device as they are now.
pub(crate) fn sync_folder<R: Files<File = File>>(rt: &R, path: &str) -> io::Result<()> {
    File::open(rt, folder_of(path))?.sync_all()
}

fn folder_of(path: &str) -> Path<'_> {
    match Path::new(path).parent() {
        Some(folder) if !folder.as_str().is_empty() => folder,
        _ => Path::new("."),
    }
}
