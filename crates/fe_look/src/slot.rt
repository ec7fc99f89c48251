//! Reading one slot, a half of a store. A gate is the byte in front of a group that is 1 if the group counts
//! (`docs/store.md`).

ghost use Rattle.std.specs.Prelude.{◌≡◌, ◌+◌, ◌<◌, ◌≤◌, ℕ, IsTrue, length, IfOk, IfNone, IfSome, OnOk};
ghost use Rattle.fe_disk.specs.Disk.{after_write};
ghost use Rattle.fe_journal.specs.Layout.{area_bytes, device_bytes};
ghost use Rattle.fe_look.specs.Reading.{HasRead, OnlyAsks};
ghost use Rattle.fe_look.specs.Slot.{EndsAt, HasParts, IsSlotCopy, IsHeaderOf};

use crate::header::{HeaderBytes, read_header};
use crate::parts::{read_byte, read_number, read_part};
use fe_disk::{DeviceFault, Disk};
use fe_journal::{AREA_BYTES, area_of, header_of, image_of};

/// Reads a slot into the bytes, to where it is on the device, with the groups whose gates were open. Returns
/// whether its header's fields are still these; if not, a checkpoint began in it, and it may not be whole.
pub(crate) fn read_slot<D: Disk>(
    disk: &mut D,
    bytes: &mut [u8],
    slot: usize,
    header: &HeaderBytes,
) -> Result<bool, DeviceFault>
    requires is_slot { slot < 2 }
    requires device { D.size disk.old ≡ device_bytes }
    requires room { length bytes.old ≡ device_bytes }
    ensures copied { D.honest disk.old
        → OnOk result (IsSlotCopy (D.seen disk.old) slot header.now.fields bytes.old bytes.new) }
    ensures whole { D.honest disk.old → IsHeaderOf (D.seen disk.old) slot header.now
        → IfOk result (λ same. IsTrue same) }
    // The image, a gate, the journal area, and the header and its gate again are read.
    ensures again { OnOk result (HasRead 5 (D.calls disk.old) (D.calls disk.new)) }
    ensures same { length bytes.new ≡ length bytes.old }
    ensures device { OnlyAsks D.Disk result disk.old disk.new }
{
    read_parts(disk, bytes, slot)?;
    // The fields of the header, and its open gate.
    put(bytes, header_of(slot), &header.fields);
    bytes[image_of(slot) - 1] = 1;
    let again = read_header(disk, slot)?;
    Ok(again.fields == header.fields)
}

// Reads the image and the journal area of a slot to where they are in the bytes. The gate that ended the
// groups is closed.
fn read_parts<D: Disk>(disk: &mut D, bytes: &mut [u8], slot: usize) -> Result<(), DeviceFault>
    requires is_slot { slot < 2 }
    requires device { D.size disk.old ≡ device_bytes }
    requires room { length bytes.old ≡ device_bytes }
    ensures parts { D.honest disk.old → OnOk result (HasParts (D.seen disk.old) slot bytes.old bytes.new) }
    ensures reads { OnOk result (HasRead 3 (D.calls disk.old) (D.calls disk.new)) }
    ensures same { length bytes.new ≡ length bytes.old }
    ensures device { OnlyAsks D.Disk result disk.old disk.new }
{
    let image = image_of(slot);
    let area = area_of(slot);
    read_part(disk, bytes, image, area - image)?;
    let end = end_of_groups(disk, area)?;
    read_part(disk, bytes, area, AREA_BYTES)?;
    if let Some(end) = end {
        bytes[area + end] = 0;
    }
    Ok(())
}

fn put(bytes: &mut [u8], at: usize, part: &[u8])
    requires room { at + length part.now ≤ length bytes.old }
    ensures { bytes.new ≡ after_write bytes.old at part.now }
{
    bytes[at..at + part.len()].copy_from_slice(part);
}

// The place in a journal area of the gate that ends its groups, which was not open. Each gate is read before
// what follows it. `None` if the lengths of groups lead beyond the area, or to a gate in its last four bytes,
// after which no group has room.
fn end_of_groups<D: Disk>(disk: &mut D, area: usize) -> Result<Option<usize>, DeviceFault>
    requires area { area + area_bytes ≤ device_bytes }
    requires device { D.size disk.old ≡ device_bytes }
    ensures ends { D.honest disk.old → IfOk result (λ found. IfSome found (EndsAt (D.seen disk.old) area)) }
    ensures within { IfOk result (λ found. IfSome found (λ end. end < area_bytes)) }
    ensures none { D.honest disk.old → IfOk result
        (λ found. IfNone found ((end : ℕ) → EndsAt (D.seen disk.old) area end → area_bytes < end + 5)) }
    ensures reads { OnOk result (HasRead 1 (D.calls disk.old) (D.calls disk.new)) }
    ensures device { OnlyAsks D.Disk result disk.old disk.new }
{
    let mut at = 0;
    while at <= AREA_BYTES - 5 {
        if read_byte(disk, area + at)? != 1 {
            return Ok(Some(at));
        }
        at += 5 + read_number(disk, area + at + 1)? as usize;
    }
    Ok(None)
}
