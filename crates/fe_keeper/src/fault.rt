//! How a call of a keeper, the owner of a store, fails (`docs/model.md`, "The keeper").

use fe_journal::{JournalFault, StoreFault};
use fe_memory::OutOfMemory;
use fe_replica::Refused;

/// Why a call of a keeper failed.
#[derive(Clone, Copy, PartialEq, Eq)]
pub enum Fault {
    /// A device call failed. The store has to be opened again.
    Device,
    /// A device call failed earlier, and this call did nothing.
    Failed,
    /// Memory ran out.
    NoMemory(OutOfMemory),
    /// The batch does not continue the history, first at this place.
    Mismatch { place: u64 },
    /// The slot that counts is wrong at this offset of the device, in bytes (`docs/formats.md`, "Device" and
    /// "Journal area").
    Damaged { offset: usize },
    /// The device doesn't have the size of a store, or neither slot is valid.
    Unformatted,
}

impl From<OutOfMemory> for Fault {
    ghost use Rattle.std.specs.Prelude.{◌≡◌};
    ghost use Rattle.fe_keeper.specs.declared.fault.Fault.TheVariants.{NoMemory};

    ghost from_gives = { λ error fault. fault ≡ NoMemory error };

    fn from(error: OutOfMemory) -> Fault {
        Fault::NoMemory(error)
    }
}

impl From<JournalFault> for Fault {
    ghost use Rattle.std.specs.Prelude.{◌≡◌};
    ghost use Rattle.fe_keeper.specs.within.Faults.{fault_of_journal};

    ghost from_gives = { λ before fault. fault ≡ fault_of_journal before };

    fn from(before: JournalFault) -> Fault {
        match before {
            JournalFault::Device => Fault::Device,
            JournalFault::Failed => Fault::Failed,
        }
    }
}

impl From<StoreFault> for Fault {
    ghost use Rattle.std.specs.Prelude.{◌≡◌};
    ghost use Rattle.fe_keeper.specs.within.Faults.{fault_of_store};

    ghost from_gives = { λ before fault. fault ≡ fault_of_store before };

    fn from(before: StoreFault) -> Fault {
        match before {
            StoreFault::Device => Fault::Device,
            StoreFault::NoMemory(error) => Fault::NoMemory(error),
            StoreFault::Unformatted => Fault::Unformatted,
            StoreFault::Damaged { offset } => Fault::Damaged { offset },
        }
    }
}

impl From<Refused> for Fault {
    ghost use Rattle.std.specs.Prelude.{◌≡◌};
    ghost use Rattle.fe_keeper.specs.within.Faults.{fault_of_refused};

    ghost from_gives = { λ before fault. fault ≡ fault_of_refused before };

    fn from(before: Refused) -> Fault {
        match before {
            Refused::Mismatch { place } => Fault::Mismatch { place },
            Refused::NoMemory(error) => Fault::NoMemory(error),
        }
    }
}
