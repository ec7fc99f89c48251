//! Why a store is not opened, and why a file next to it is not made, kept or removed (`docs/store.md`, "The
//! file").

ghost use Rattle.std.specs.Prelude.{◌≡◌};
ghost use Rattle.fe_memory.specs.Memory.{out_of_memory};
ghost use Rattle.fe_journal.specs.Found.{refusal, BlankIsTold};
ghost use Rattle.fe_keeper.specs.Opened.{IsOpenFault};
ghost use Rattle.fe_keeper.specs.declared.fault.Fault.TheVariants as store;
ghost use Rattle.fe_store.specs.within.Faults.{IsOpenFaultOf};
ghost use Rattle.fe_store.specs.declared.fault.OpenFault.TheVariants as fault;

use fe_disk::{DeviceFault, Disk, FileFault};
use fe_keeper::{Fault, Unopened};
use fe_memory::OutOfMemory;
use std::io;

/// Why a store is not opened.
#[derive(Clone, Copy, PartialEq, Eq)]
pub enum OpenFault {
    /// The store's file is missing, no plain file or locked by another server; its device failed; or a file
    /// next to it is in the way.
    Device,
    /// Memory ran out.
    Memory(OutOfMemory),
    /// The store's file has this size in bytes, which is not the size of a store.
    Size(u64),
    /// The device doesn't have the size of a store, or neither slot is valid.
    Unformatted,
    /// The slot that counts is wrong at this offset of the device, in bytes (`docs/formats.md`, "Journal
    /// area").
    Damaged(usize),
}

impl From<FileFault> for OpenFault {
    ghost use Rattle.std.specs.Prelude.{◌≡◌};
    ghost use Rattle.fe_store.specs.within.Faults.{fault_of_file};

    ghost from_gives = { λ before fault. fault ≡ fault_of_file before };

    fn from(before: FileFault) -> OpenFault {
        match before {
            FileFault::Missing => OpenFault::Device,
            FileFault::WrongSize { found } => OpenFault::Size(found),
            FileFault::Device => OpenFault::Device,
        }
    }
}

impl From<OutOfMemory> for OpenFault {
    ghost use Rattle.std.specs.Prelude.{◌≡◌};
    ghost use Rattle.fe_store.specs.declared.fault.OpenFault.TheVariants.{Memory};

    ghost from_gives = { λ error fault. fault ≡ Memory error };

    fn from(error: OutOfMemory) -> OpenFault {
        OpenFault::Memory(error)
    }
}

impl From<DeviceFault> for OpenFault {
    ghost use Rattle.std.specs.Prelude.{◌≡◌};
    ghost use Rattle.fe_store.specs.declared.fault.OpenFault.TheVariants.{Device};

    ghost from_gives = { λ _ fault. fault ≡ Device };

    fn from(_: DeviceFault) -> OpenFault {
        OpenFault::Device
    }
}

/// Why a file next to a store is not made, kept or removed.
#[derive(Clone, Copy, PartialEq, Eq)]
pub(crate) enum BesideFault {
    /// A file was not read, written, named or removed, or holds other bytes.
    Device,
    /// Memory ran out.
    Memory(OutOfMemory),
}

impl From<OutOfMemory> for BesideFault {
    fn from(error: OutOfMemory) -> BesideFault {
        BesideFault::Memory(error)
    }
}

impl From<DeviceFault> for BesideFault {
    fn from(_: DeviceFault) -> BesideFault {
        BesideFault::Device
    }
}

impl From<FileFault> for BesideFault {
    fn from(_: FileFault) -> BesideFault {
        BesideFault::Device
    }
}

impl From<io::Error> for BesideFault {
    fn from(_: io::Error) -> BesideFault {
        BesideFault::Device
    }
}

impl From<BesideFault> for OpenFault {
    ghost use Rattle.std.specs.Prelude.{◌≡◌, ◌⊎◌};
    ghost use Rattle.fe_store.specs.declared.fault.OpenFault.TheVariants.{Device, Memory};

    ghost from_gives = { λ _ fault. (fault ≡ Device) ⊎ (fault ≡ Memory out_of_memory) };

    fn from(before: BesideFault) -> OpenFault {
        match before {
            BesideFault::Device => OpenFault::Device,
            BesideFault::Memory(error) => OpenFault::Memory(error),
        }
    }
}

/// The fault when a keeper is not opened.
pub(crate) fn open_fault_of(fault: Fault) -> OpenFault
    requires { IsOpenFault fault }
    ensures { IsOpenFaultOf fault result }
{
    match fault {
        Fault::Device => OpenFault::Device,
        Fault::NoMemory(error) => OpenFault::Memory(error),
        Fault::Unformatted => OpenFault::Unformatted,
        Fault::Damaged { offset } => OpenFault::Damaged(offset),
        Fault::Failed | Fault::Mismatch { .. } => unreachable!(),
    }
}

/// Why a store is not opened, when its keeper is not.
pub(crate) fn unopened_of<D: Disk>(unopened: Unopened<Fault, D>) -> Unopened<OpenFault, D>
    requires { IsOpenFault (refusal store.Unformatted unopened).0 }
    ensures fault { IsOpenFaultOf (refusal store.Unformatted unopened).0
        (refusal fault.Unformatted result).0 }
    ensures disk { (refusal fault.Unformatted result).1 ≡ (refusal store.Unformatted unopened).1 }
    ensures blank { BlankIsTold store.Unformatted unopened → BlankIsTold fault.Unformatted result }
{
    match unopened {
        Unopened::Blank(blank) => Unopened::Blank(blank),
        Unopened::Refused(fault, disk) => Unopened::Refused(open_fault_of(fault), disk),
    }
}
