// How a slot that does not count is begun: its gate is closed, and then its header is written
// (`docs/store.md`).
ghost use Rattle.std.specs.Prelude.{◌≡◌, ◌<◌, ◌^◌, ℕ, List, OnOk};
ghost use Rattle.fe_disk.specs.Disk.{LeavesJust};
ghost use Rattle.fe_disk.specs.Runs.{LeavesOnly, AsksAtMost};
ghost use Rattle.fe_journal.specs.Layout.{device_bytes, gate_of};
ghost use Rattle.fe_journal.specs.Journal.{header_fields, IsHeaderTorn, IsLeftInBeginning, IsSlotBegun};
ghost use Rattle.fe_journal.specs.Journal.{Shuts};

use crate::Format;
use crate::commit::shut;
use crate::layout::{gate_of, header_of};
use crate::spelling::header_fields;
use fe_disk::{DeviceFault, Disk};

/// Closes the slot's gate if it is open, and then writes the fields of its header.
pub fn begin_slot<D: Disk>(
    disk: &mut D,
    slot: usize,
    format: Format,
    generation: u64,
    image_length: usize,
) -> Result<(), DeviceFault>
    requires is_slot { slot < 2 }
    requires device { D.size disk.old ≡ device_bytes }
    requires short { image_length < 2 ^ 32 }

    // This holds of a disk on which all that was written is synced.
    ensures any_moment { D.honest disk.old → LeavesJust (D.seen disk.old) (D.may_leave disk.old)
        → LeavesOnly D.Disk disk.old disk.new (IsLeftInBeginning (D.seen disk.old) slot) }
    ensures begun { D.honest disk.old → OnOk result
        (IsSlotBegun (D.seen disk.old) slot (header_fields format generation image_length)
        (D.seen disk.new)) }
    ensures left { D.honest disk.old → LeavesJust (D.seen disk.old) (D.may_leave disk.old)
        → OnOk result ((image : List ℕ) → D.may_leave disk.new image
        → IsHeaderTorn (D.seen disk.old) slot image) }

    ensures made { D.honest disk.old
        → OnOk result (Shuts (D.seen disk.old) (gate_of slot) 1 (D.calls disk.old) (D.calls disk.new)) }
    ensures device { AsksAtMost D.Disk 1 2 1 result disk.old disk.new }
{
    shut(disk, gate_of(slot))?;
    let fields = header_fields(format, generation, image_length);
    disk.write_at(header_of(slot), &fields)
}
