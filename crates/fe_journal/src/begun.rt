use crate::Format;

/// A slot that was begun, for a new image, and is not finished (`docs/store.md`).
#[derive(Clone, Copy, PartialEq, Eq)]
pub struct Begun {
    pub format: Format,
    pub generation: u64,
    /// How many bytes its image has: 24 to 774,232, or to 740,440 in format 1.
    pub image_length: usize,
    /// How many bytes of the image were written so far.
    pub written: usize,
}
