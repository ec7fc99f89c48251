//! Opening the store on a disk (`docs/store.md`, "Opening a store"), or making a new one there. A keeper is
//! an open store and the state that it stands for (`docs/model.md`, "The keeper").

ghost use Rattle.std.specs.Prelude.{◌≡◌, false, IfOk, IfErr};
ghost use Rattle.fe_memory.specs.Memory.{out_of_memory};
ghost use Rattle.fe_disk.specs.Runs.{without_disk};
ghost use Rattle.fe_journal.specs.Found.{AsksToOpen, told, BlankIsTold};
ghost use Rattle.fe_journal.specs.Layout.{device_bytes};
ghost use Rattle.fe_journal.specs.Journal.{OnlyReads};
ghost use Rattle.fe_keeper.specs.Damage.{MayLackMemory};
ghost use Rattle.fe_keeper.specs.Opened.{IsOpenedFrom};
ghost use Rattle.fe_store.specs.Opening.{IsToFormat, IsOpenedAs, EndsOpening, disk_after};
ghost use Rattle.fe_store.specs.declared.fault.OpenFault.TheVariants as fault;

use crate::fault::{OpenFault, open_fault_of, unopened_of};
use fe_disk::Disk;
use fe_keeper::{Keeper, Unopened};
use std::alloc::Global;

/// Opens the store on a disk: a sync, and then only reads. It never fails with `Size`.
pub fn open_existing<D: Disk>(alloc: Global, disk: D) -> Result<Keeper<D>, (OpenFault, D)>
    // What is read of the disk stands for the keeper's state, and so does each image that a stop may leave.
    ensures opened { D.honest disk → IfOk result (IsOpenedFrom D.Disk (D.seen disk)) }
    // The keeper's device works, and no checkpoint is under way. Of an honest disk `Unformatted` and
    // `Damaged` are reported only if it is so, and a store that stands for a state is refused only if the
    // device fails or memory runs out.
    ensures ends { EndsOpening D.Disk disk result }
    // Memory runs out only if the header of the slot that counts is right and, once the whole store is read,
    // also the lengths of its groups and the first fields of its image.
    ensures memory { D.honest disk
        → IfErr result (λ e. e.0 ≡ fault.Memory out_of_memory
        → MayLackMemory (D.seen disk) (D.calls disk) (D.calls e.1)) }
    // No stop leaves what could not be left before, and what is read stays the same.
    ensures reads { D.honest disk → OnlyReads D.Disk disk (disk_after result) }

    // It makes a sync and four reads at most, and reports `Device` exactly if one of these calls failed.
    ensures device { AsksToOpen D.Disk fault.Device (without_disk result) disk
        (disk_after result) }
{
    match found_or_blank(alloc, disk) {
        Ok(keeper) => Ok(keeper),
        Err(unopened) => Err(unopened.into_parts(OpenFault::Unformatted)),
    }
}

/// Opens the store on a disk as `open_existing` does. An unformatted disk is given as a blank one, which may
/// be formatted.
fn found_or_blank<D: Disk>(alloc: Global, disk: D) -> Result<Keeper<D>, Unopened<OpenFault, D>>
    ensures opened { D.honest disk → IfOk result (IsOpenedFrom D.Disk (D.seen disk)) }
    ensures ends { EndsOpening D.Disk disk (told fault.Unformatted result) }
    ensures memory { D.honest disk → IfErr (told fault.Unformatted result)
        (λ e. e.0 ≡ fault.Memory out_of_memory → MayLackMemory (D.seen disk) (D.calls disk) (D.calls e.1)) }
    ensures reads { D.honest disk → OnlyReads D.Disk disk (disk_after (told fault.Unformatted result)) }
    ensures device { AsksToOpen D.Disk fault.Device (without_disk (told fault.Unformatted result)) disk
        (disk_after (told fault.Unformatted result)) }
    ensures blank { IfErr result (BlankIsTold fault.Unformatted) }
{
    match Keeper::open_or_blank(alloc, disk) {
        Ok(keeper) => Ok(keeper),
        Err(unopened) => Err(unopened_of(unopened)),
    }
}

/// Opens the store on a disk. If the disk is unformatted, it makes a new store there if `format` is set and
/// the disk has a store's size, and else fails with `Unformatted`.
pub fn open_on<D: Disk>(alloc: Global, disk: D, format: bool) -> Result<Keeper<D>, (OpenFault, D)>
    // The keeper has the state that the disk stands for, or that of a new store if there was none and one was
    // asked for.
    ensures opened { D.honest disk → IfOk result (IsOpenedAs D.Disk (D.seen disk) format) }
    // The keeper's device works, and no checkpoint is under way. Of an honest disk `Unformatted` and
    // `Damaged` are reported only if it is so, and a store that stands for a state is refused only if the
    // device fails or memory runs out.
    ensures ends { EndsOpening D.Disk disk result }
    // Unless the disk is unformatted and `format` is set, no stop leaves what could not be left before, and
    // what is read stays the same.
    ensures reads { D.honest disk → (IsToFormat (D.seen disk) format → ⊥)
        → OnlyReads D.Disk disk (disk_after result) }

    // A disk of a store's size is reported as unformatted only if no format was asked for.
    ensures unformatted { D.size disk ≡ device_bytes
        → IfErr result (λ e. e.0 ≡ fault.Unformatted → format ≡ false) }
{
    let blank = match found_or_blank(alloc, disk) {
        Ok(keeper) => return Ok(keeper),
        Err(Unopened::Refused(fault, disk)) => return Err((fault, disk)),
        Err(Unopened::Blank(blank)) => blank,
    };
    if !format {
        return Err((OpenFault::Unformatted, blank.into_disk()));
    }
    match Keeper::format(alloc, blank) {
        Ok(keeper) => Ok(keeper),
        Err((fault, disk)) => Err((open_fault_of(fault), disk)),
    }
}
