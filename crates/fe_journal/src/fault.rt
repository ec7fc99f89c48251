//! The faults of a store's journal (`docs/store.md`, "When the device fails"). `docs/formats.md`, "Device",
//! says when a slot is valid, and which one counts; "Journal area", at which offset it is damaged.

use fe_disk::DeviceFault;
use fe_memory::OutOfMemory;

/// Why a store was not opened or formatted.
#[derive(Clone, Copy, PartialEq, Eq)]
pub enum StoreFault {
    /// The device doesn't have the size of a store, or neither slot is valid.
    Unformatted,
    /// The slot that counts is wrong at this offset of the device, in bytes.
    Damaged { offset: usize },
    /// A device call failed.
    Device,
    /// There was no memory.
    NoMemory(OutOfMemory),
}

/// Why a call of a journal failed.
#[derive(Clone, Copy, PartialEq, Eq)]
pub enum JournalFault {
    /// A device call failed. The store has to be opened again.
    Device,
    /// A device call failed earlier, and this call did nothing.
    Failed,
}

impl From<DeviceFault> for StoreFault {
    ghost use Rattle.std.specs.Prelude.{◌≡◌};
    ghost use Rattle.fe_journal.specs.declared.fault.StoreFault.TheVariants.{Device};

    ghost from_gives = { λ _ fault. fault ≡ Device };

    fn from(_: DeviceFault) -> StoreFault {
        StoreFault::Device
    }
}

impl From<OutOfMemory> for StoreFault {
    ghost use Rattle.std.specs.Prelude.{◌≡◌};
    ghost use Rattle.fe_journal.specs.declared.fault.StoreFault.TheVariants.{NoMemory};

    ghost from_gives = { λ error fault. fault ≡ NoMemory error };

    fn from(error: OutOfMemory) -> StoreFault {
        StoreFault::NoMemory(error)
    }
}
