/// A version of the frames (`docs/formats.md`, "Frames").
#[derive(Clone, Copy, PartialEq, Eq)]
pub enum Version {
    /// No access that must not wait, and names of at most 16 bytes.
    One,
    /// Version 1, accesses that must not wait, and names of at most 32 bytes.
    Two,
}
