//! Reading the headers of a store's two slots, its halves (`docs/store.md`).

ghost use Rattle.std.specs.Prelude.{◌≡◌, ◌<◌, IfOk, IfSome, OnOk};
ghost use Rattle.fe_journal.specs.Layout.{device_bytes, number_at};
ghost use Rattle.fe_look.specs.Reading.{OnlyAsks, ReadsJust};
ghost use Rattle.fe_look.specs.Slot.{IsFormatIn, IsHeaderOf, Counts, IsChosen};

use crate::parts::read_byte;
use byteorder::{BigEndian, ByteOrder};
use fe_disk::{DeviceFault, Disk};
use fe_format::Format;
use fe_journal::{header_of, image_of};

/// The bytes of a header that are read, besides its gate.
pub(crate) const FIELDS: usize = 20;

/// The fields of a slot's header, as bytes, and its gate.
#[derive(Clone, Copy)]
pub(crate) struct HeaderBytes {
    pub(crate) fields: [u8; FIELDS],
    gate: u8,
}

impl HeaderBytes {
    // The format of the slot, if the slot is valid.
    fn format(&self) -> Option<Format>
        ensures { IsFormatIn self.now result }
    {
        let magic = BigEndian::read_u64(&self.fields);
        if self.gate != 1 {
            None
        } else if magic == Format::One.magic() {
            Some(Format::One)
        } else if magic == Format::Two.magic() {
            Some(Format::Two)
        } else {
            None
        }
    }

    fn generation(&self) -> u64
        ensures { result ≡ number_at self.now.fields 8 8 }
    {
        BigEndian::read_u64(&self.fields[8..])
    }
}

/// The slot that counts, and its header. `None` if neither slot is valid.
pub(crate) fn read_counting<D: Disk>(
    disk: &mut D,
) -> Result<Option<(usize, HeaderBytes)>, DeviceFault>
    requires device { D.size disk.old ≡ device_bytes }
    ensures counts { D.honest disk.old → IfOk result (Counts (D.seen disk.old)) }
    ensures is_slot { IfOk result (λ found. IfSome found (λ s. s.0 < 2)) }
    ensures reads { OnOk result (ReadsJust 4 (D.calls disk.old) (D.calls disk.new)) }
    ensures device { OnlyAsks D.Disk result disk.old disk.new }
{
    let first = read_header(disk, 0)?;
    let second = read_header(disk, 1)?;
    Ok(chosen(&first, &second))
}

// Which slot counts, if the slots have these headers.
fn chosen(first: &HeaderBytes, second: &HeaderBytes) -> Option<(usize, HeaderBytes)>
    ensures counts { IsChosen first.now second.now result }
{
    match (first.format(), second.format()) {
        (None, None) => None,
        (Some(_), None) => Some((0, *first)),
        (None, Some(_)) => Some((1, *second)),
        (Some(_), Some(_)) => {
            if first.generation() < second.generation() {
                Some((1, *second))
            } else {
                Some((0, *first))
            }
        }
    }
}

/// The header of a slot. The gate, just before the image, is read after the fields.
pub(crate) fn read_header<D: Disk>(disk: &mut D, slot: usize) -> Result<HeaderBytes, DeviceFault>
    requires is_slot { slot < 2 }
    requires device { D.size disk.old ≡ device_bytes }
    ensures header { D.honest disk.old → IfOk result (IsHeaderOf (D.seen disk.old) slot) }
    ensures reads { OnOk result (ReadsJust 2 (D.calls disk.old) (D.calls disk.new)) }
    ensures device { OnlyAsks D.Disk result disk.old disk.new }
{
    let mut fields = [0; FIELDS];
    disk.read_at(header_of(slot), &mut fields)?;
    let gate = read_byte(disk, image_of(slot) - 1)?;
    Ok(HeaderBytes { fields, gate })
}
