use fe_disk::DeviceFault;
use fe_memory::OutOfMemory;
use std::alloc::{AllocError, AllocFailed};
use std::io;

/// Why a line of a script can't be carried out.
#[derive(Clone, Copy, Debug, PartialEq, Eq)]
pub enum Trouble {
    /// Memory ran out.
    Memory,
    /// The line is outside the syntax, uses a name that was not given, or has entries that are not legal.
    Syntax,
    /// The disk has no such bytes or no store, a call failed that should not, or a reply that a desk wrote is
    /// not in its state.
    Disk,
    /// Standard input can't be read or is not UTF-8, or standard output can't be written.
    Stream,
}

impl From<OutOfMemory> for Trouble {
    fn from(_: OutOfMemory) -> Trouble {
        Trouble::Memory
    }
}

impl From<AllocError> for Trouble {
    fn from(_: AllocError) -> Trouble {
        Trouble::Memory
    }
}

impl<T: Drop> From<AllocFailed<T>> for Trouble {
    fn from(_: AllocFailed<T>) -> Trouble {
        Trouble::Memory
    }
}

impl From<DeviceFault> for Trouble {
    fn from(_: DeviceFault) -> Trouble {
        Trouble::Disk
    }
}

impl From<io::Error> for Trouble {
    fn from(_: io::Error) -> Trouble {
        Trouble::Stream
    }
}
