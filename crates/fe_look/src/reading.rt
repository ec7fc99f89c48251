//! Copying a store that a server may be writing (`docs/store.md`, "A copy while the store is written").

ghost use Rattle.std.specs.Prelude.{◌≡◌, ℕ, length, slice_index, IfOk, IfErr, IsErrOf, OnOk};
ghost use Rattle.fe_disk.specs.Disk.{Rises};
ghost use Rattle.fe_disk.specs.Memory.{IsHonest};
ghost use Rattle.fe_journal.specs.Layout.{device_bytes};
ghost use Rattle.fe_store.specs.Opening.{IsReason};
ghost use Rattle.fe_store.specs.declared.fault.OpenFault.TheVariants as fault;
ghost use Rattle.fe_look.specs.Reading.{GivesUpLate, HasRead, KeepsDisk, IsCopyOf, ReadsFor, SyncsJust};
ghost use Rattle.fe_look.specs.Reading.{TellsReading, IsDeviceOrMemory};

use crate::header::read_counting;
use crate::slot::read_slot;
use fe_disk::{Disk, MemoryDisk};
use fe_journal::DEVICE_BYTES;
use fe_memory::OutOfMemory;
use fe_store::OpenFault;
use std::alloc::Global;

/// The most readings of a store. One more is made each time that no slot counts, or a checkpoint began in the
/// slot that was read.
const MOST_READINGS: u64 = 100;

/// What one reading of a store found.
#[derive(Drop)]
enum Reading {
    /// No slot counts.
    Unformatted,
    /// A checkpoint began in the slot while it was read.
    Overtaken,
    /// The bytes of a device that has the slot that counts, and zeros elsewhere.
    Whole(Vec<u8>),
}

/// A copy of the store on a disk, as a crash at some moment since the call began may leave it, with only the
/// slot that counted then. All that it holds is synced. `Unformatted` if the disk has another size than a
/// store, or none of 100 readings found a slot that counts. `Device` if the disk fails, or if none of 100
/// readings was whole and a checkpoint began during one at least, which an honest disk, one that only its
/// owner writes, never shows. `Memory` if memory runs out.
pub(crate) fn copy_of<D: Disk>(alloc: Global, disk: &mut D) -> Result<MemoryDisk, OpenFault>
    // The copy holds what the disk holds, and what is wrong with the disk is wrong with it.
    ensures copy { D.honest disk.old → IfOk result (λ copy. IsCopyOf (D.seen disk.old) copy.image) }
    ensures honest { IfOk result IsHonest }
    // A reported fault is true of the store, and a store that can be opened is refused only with `Device` or
    // `Memory`.
    ensures refused { D.honest disk.old → IfErr result (IsReason (D.seen disk.old)) }
    ensures device { D.honest disk.old
        → IsErrOf result fault.Device → Rises (D.failures disk.old) (D.failures disk.new) }
    ensures failed { Rises (D.failures disk.old) (D.failures disk.new) → IsErrOf result fault.Device }
    // On any disk: it gives up only after the hundredth reading.
    ensures tried { GivesUpLate D.Disk result disk.old disk.new }
    // On any disk: the slot's header is read again behind the slot, and the disk is synced before the
    // readings and after them.
    ensures again { OnOk result (HasRead 9 (D.calls disk.old) (D.calls disk.new)) }
    ensures synced { OnOk result (SyncsJust 2 (D.calls disk.old) (D.calls disk.new)) }
    // It writes nothing. A crash leaves nothing that it couldn't leave before, and reads give the same bytes.
    ensures kept { KeepsDisk D.Disk disk.old disk.new }
    ensures sized { (found : ℕ) → IsErrOf result (fault.Size found) → ⊥ }
{
    disk.sync()?;
    if disk.size() != DEVICE_BYTES {
        return Err(OpenFault::Unformatted);
    }
    let bytes = read_bytes(alloc, disk)?;
    disk.sync()?;
    Ok(MemoryDisk::over(alloc, bytes))
}

// The bytes of a store, from the first reading that found a slot that counts and in which no checkpoint
// began.
fn read_bytes<D: Disk>(alloc: Global, disk: &mut D) -> Result<Vec<u8>, OpenFault>
    requires device { D.size disk.old ≡ device_bytes }
    ensures copy { D.honest disk.old → IfOk result (λ bytes. IsCopyOf (D.seen disk.old) bytes.items) }
    ensures refused { D.honest disk.old → IfErr result (IsReason (D.seen disk.old)) }
    ensures fault { D.honest disk.old
        → IsErrOf result fault.Device → Rises (D.failures disk.old) (D.failures disk.new) }
    ensures still { (IsErrOf result fault.Device → ⊥) → D.failures disk.new ≡ D.failures disk.old }
    ensures tried { GivesUpLate D.Disk result disk.old disk.new }
    ensures again { OnOk result (HasRead 9 (D.calls disk.old) (D.calls disk.new)) }
    ensures unsynced { SyncsJust 0 (D.calls disk.old) (D.calls disk.new) }
    ensures sized { (found : ℕ) → IsErrOf result (fault.Size found) → ⊥ }
    ensures kept { KeepsDisk D.Disk disk.old disk.new }
{
    let mut is_formatted = false;
    for _k in 0..MOST_READINGS {
        match read_once(alloc, disk)? {
            Reading::Whole(bytes) => return Ok(bytes),
            Reading::Overtaken => is_formatted = true,
            Reading::Unformatted => {}
        }
    }
    if is_formatted {
        Err(OpenFault::Device)
    } else {
        Err(OpenFault::Unformatted)
    }
}

// One reading of the store, and what it found.
fn read_once<D: Disk>(alloc: Global, disk: &mut D) -> Result<Reading, OpenFault>
    requires device { D.size disk.old ≡ device_bytes }
    ensures tells { D.honest disk.old → IfOk result (TellsReading (D.seen disk.old)) }
    ensures faults { IfErr result IsDeviceOrMemory }
    ensures reads { IfOk result (λ found. ReadsFor found (D.calls disk.old) (D.calls disk.new)) }
    ensures unsynced { SyncsJust 0 (D.calls disk.old) (D.calls disk.new) }
    ensures fault { IsErrOf result fault.Device → Rises (D.failures disk.old) (D.failures disk.new) }
    ensures still { (IsErrOf result fault.Device → ⊥) → D.failures disk.new ≡ D.failures disk.old }
    ensures kept { KeepsDisk D.Disk disk.old disk.new }
{
    let Some((slot, header)) = read_counting(disk)? else {
        return Ok(Reading::Unformatted);
    };
    let mut bytes = zeros(alloc, DEVICE_BYTES)?;
    if read_slot(disk, bytes.as_mut_slice(), slot, &header)? {
        Ok(Reading::Whole(bytes))
    } else {
        Ok(Reading::Overtaken)
    }
}

fn zeros(alloc: Global, count: usize) -> Result<Vec<u8>, OutOfMemory>
    ensures size { IfOk result (λ bytes. length bytes.items ≡ count) }
    ensures zeros { IfOk result (λ bytes. (i : ℕ) → slice_index bytes.items i ≡ 0) }
{
    Ok(vec![in alloc; 0; count]?)
}
