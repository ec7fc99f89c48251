//! Making a new store on a device (`docs/store.md`, "Formatting").

ghost use Rattle.std.specs.Prelude.{◌≡◌, None, IfOk, OnOk, vec_len};
ghost use Rattle.fe_memory.specs.Memory.{out_of_memory};
ghost use Rattle.fe_disk.specs.Disk.{LeavesJust};
ghost use Rattle.fe_disk.specs.Runs.{Asks, without_disk};
ghost use Rattle.fe_journal.specs.Layout.{device_bytes, area_bytes};
ghost use Rattle.fe_journal.specs.Journal.{KeepsContents, new_journal, Formats, disk_left, IsCleared};
ghost use Rattle.fe_journal.specs.Journal.{IsFirstSlot};
ghost use Rattle.fe_journal.specs.Contents.{Holds, first_contents};
ghost use Rattle.fe_format.specs.declared.format.Format.TheVariants.{Two};
ghost use Rattle.fe_journal.specs.declared.fault.StoreFault.TheVariants.{Unformatted, Device, NoMemory};

use crate::buffer::buffer_of;
use crate::commit::commit;
use crate::layout::{AREA_BYTES, DEVICE_BYTES, area_of, gate_of, header_of, image_of};
use crate::spelling::header_fields;
use crate::{Blank, Format, Journal, StoreFault};
use fe_disk::{DeviceFault, Disk};
use std::alloc::Global;

/// The image of a state with no entries, arrays or sessions: place 0 (the number of entries so far), next
/// array id 1. It is the same in both formats.
const EMPTY_IMAGE: [u8; 24] = [
    0, 0, 0, 0, 0, 0, 0, 0, 0, 0, 0, 0, 0, 0, 0, 1, 0, 0, 0, 0, 0, 0, 0, 0,
];

impl<D: Disk> Journal<D> {
    /// Makes a new store of format 2 on the device, which an opening found unformatted. `Unformatted` (the
    /// device doesn't have the size of a store) and `NoMemory` leave the device alone. If formatting stops,
    /// or a device call fails, nothing is promised about the device's bytes, and it has to be opened and
    /// formatted again.
    pub fn format(alloc: Global, blank: Blank<D>) -> Result<Journal<D>, (StoreFault, D)>
        ensures formatted { D.honest blank
            → IfOk result (λ journal. KeepsContents D.Disk journal (first_contents Two) None) }

        // Over any disk, the journal is that of a new store.
        ensures value { IfOk result (λ journal. journal ≡ new_journal Two journal.disk) }
        ensures ends { Formats D.Disk Unformatted Device (NoMemory out_of_memory) (without_disk result) blank
            (disk_left result) }
    {
        Journal::format_in(alloc, Format::Two, blank)
    }

    /// Makes a new store as `format` does, in this format.
    pub fn format_in(
        alloc: Global,
        format: Format,
        blank: Blank<D>,
    ) -> Result<Journal<D>, (StoreFault, D)>
        ensures formatted { D.honest blank
            → IfOk result (λ journal. KeepsContents D.Disk journal (first_contents format) None) }

        // Over any disk, the journal is that of a new store.
        ensures value { IfOk result (λ journal. journal ≡ new_journal format journal.disk) }
        ensures ends { Formats D.Disk Unformatted Device (NoMemory out_of_memory) (without_disk result) blank
            (disk_left result) }
    {
        let mut disk = blank.into_disk();
        match write_store(alloc, format, &mut disk) {
            Err(fault) => Err((fault, disk)),
            Ok(buffer) => Ok(Journal::opened(disk, buffer, 0, format, 1, 0)),
        }
    }
}

// Writes a new store, after it allocated the buffer of the journal, which it returns.
fn write_store<D: Disk>(alloc: Global, format: Format, disk: &mut D) -> Result<Vec<u8>, StoreFault>
    ensures holds { D.honest disk.old → OnOk result (Holds (first_contents format) (D.seen disk.new)) }
    ensures settled { D.honest disk.old → OnOk result (LeavesJust (D.seen disk.new) (D.may_leave disk.new)) }
    ensures buffer { IfOk result (λ buffer. vec_len buffer ≡ area_bytes) }
    ensures sized { OnOk result (D.size disk.new ≡ device_bytes) }
    ensures ends { Formats D.Disk Unformatted Device (NoMemory out_of_memory) result disk.old disk.new }
{
    if disk.size() != DEVICE_BYTES {
        return Err(StoreFault::Unformatted);
    }
    let buffer = buffer_of(alloc, AREA_BYTES)?;
    shut_both(disk)?;
    write_first(disk, format)?;
    commit(disk, area_of(0), &[0], gate_of(0))?;
    Ok(buffer)
}

// Closes both header gates. Three device calls.
fn shut_both<D: Disk>(disk: &mut D) -> Result<(), DeviceFault>
    requires device { D.size disk.old ≡ device_bytes }
    ensures cleared { D.honest disk.old → OnOk result (IsCleared (D.seen disk.new)) }
    ensures settled { D.honest disk.old → OnOk result (LeavesJust (D.seen disk.new) (D.may_leave disk.new)) }

    ensures device { Asks D.Disk 0 2 1 result disk.old disk.new }
{
    disk.write_at(gate_of(0), &[0])?;
    disk.write_at(gate_of(1), &[0])?;
    disk.sync()
}

// Writes the header's fields and the empty image into slot 0, once the gates are closed on the disk. Two
// device calls.
fn write_first<D: Disk>(disk: &mut D, format: Format) -> Result<(), DeviceFault>
    requires device { D.size disk.old ≡ device_bytes }
    requires settled { D.honest disk.old → LeavesJust (D.seen disk.old) (D.may_leave disk.old) }
    ensures first { D.honest disk.old → IsCleared (D.seen disk.old)
        → OnOk result (IsFirstSlot format (D.seen disk.new)) }

    ensures device { Asks D.Disk 0 2 0 result disk.old disk.new }
{
    disk.write_at(header_of(0), &header_fields(format, 1, 24))?;
    disk.write_at(image_of(0), &EMPTY_IMAGE)
}
