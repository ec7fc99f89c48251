use fe_memory::OutOfMemory;

/// Why no state was read from an image.
#[derive(Clone, Copy, PartialEq, Eq)]
pub enum ImageFault {
    /// The image is wrong, first at this offset in bytes (`docs/formats.md`, "Image").
    Damaged { offset: usize },
    /// There was no memory.
    NoMemory(OutOfMemory),
}

/// Why a part of an image was not read.
#[derive(Clone, Copy, PartialEq, Eq)]
pub enum Fault {
    /// The image is wrong, and has this many bytes from its first fault on.
    Left(usize),
    /// There was no memory.
    NoMemory(OutOfMemory),
}

impl From<OutOfMemory> for Fault {
    ghost use Rattle.std.specs.Prelude.{◌≡◌};
    ghost use Rattle.fe_codec.specs.declared.fault.Fault.TheVariants.{NoMemory};

    ghost from_gives = { λ error fault. fault ≡ NoMemory error };

    fn from(error: OutOfMemory) -> Fault {
        Fault::NoMemory(error)
    }
}
