//! A fault that ends a server after its start, for which `femem serve` prints one line (`docs/operating.md`,
//! "What a server says").

use fe_keeper::Fault;

/// Why a server over an opened store ended without books, the counts that it gives at an end without a fault.
#[derive(Clone, Copy, PartialEq, Eq)]
pub enum StopFault {
    /// The device of the store failed.
    Device,
    /// Memory ran out, the committing thread could not be started, or the listener could not get a second
    /// handle.
    Memory,
    /// A layer below answered what a correct one never answers, or a book (a count of calls or mails) is
    /// full.
    Strange,
}

impl From<Fault> for StopFault {
    ghost use Rattle.std.specs.Prelude.{◌≡◌};
    ghost use Rattle.fe_server.specs.Acknowledged.{fault_of_store};

    ghost from_gives = { λ before fault. fault ≡ fault_of_store before };

    fn from(before: Fault) -> StopFault {
        match before {
            Fault::Device | Fault::Failed => StopFault::Device,
            Fault::NoMemory(_) => StopFault::Memory,
            Fault::Damaged { .. } | Fault::Unformatted | Fault::Mismatch { .. } =>
                StopFault::Strange,
        }
    }
}
