/// Why there is no disk over a file (`docs/store.md`, "The file").
#[derive(Clone, Copy, PartialEq, Eq)]
pub enum FileFault {
    /// No file has the path.
    Missing,
    /// The file has this size in bytes, and not the one asked for.
    WrongSize { found: u64 },
    /// The system refused a call; the path leads to no plain file, or no longer to the one that was opened;
    /// or another disk, in this process or another, has the file locked.
    Device,
}
