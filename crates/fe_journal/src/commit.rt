// The two orders of writing that every crash promise rests on. A gate is a byte that makes what it guards
// count, if it is 1 (`docs/store.md`, "Gates").
ghost use Rattle.std.specs.Prelude.{◌≡◌, ◌+◌, ◌≤◌, length, OnOk};
ghost use Rattle.fe_disk.specs.Disk.{IsTorn, LeavesJust};
ghost use Rattle.fe_disk.specs.Runs.{LeavesOnly, Asks, AsksAtMost};
ghost use Rattle.fe_journal.specs.Layout.{IsGateShut};
ghost use Rattle.fe_journal.specs.Journal.{after_commit, IsLeftInCommit, IsLeftInShutting, Shuts};

use fe_disk::{DeviceFault, Disk};

/// Writes the bytes, and opens the gate once they are on the disk. Four device calls.
pub fn commit<D: Disk>(
    disk: &mut D,
    at: usize,
    bytes: &[u8],
    gate: usize,
) -> Result<(), DeviceFault>
    requires fits { at + length bytes.now ≤ D.size disk.old }
    requires gate_fits { gate + 1 ≤ D.size disk.old }

    // A stop leaves the bytes torn, and, only once all of them are on the disk, the gate torn.
    ensures any_moment { D.honest disk.old → LeavesOnly D.Disk disk.old disk.new
        (IsLeftInCommit (D.may_leave disk.old) (D.seen disk.old) at bytes.now gate) }
    ensures committed { D.honest disk.old
        → OnOk result (D.seen disk.new ≡ after_commit (D.seen disk.old) at bytes.now gate) }
    ensures durable { D.honest disk.old → OnOk result (LeavesJust (D.seen disk.new) (D.may_leave disk.new)) }

    ensures device { Asks D.Disk 0 2 2 result disk.old disk.new }
{
    disk.write_at(at, bytes)?;
    disk.sync()?;
    disk.write_at(gate, &[1])?;
    disk.sync()
}

/// Closes the gate if it is open. A closed gate is not written, since a torn write could open it. One read,
/// and two more device calls if the gate is open.
pub fn shut<D: Disk>(disk: &mut D, gate: usize) -> Result<(), DeviceFault>
    requires gate_fits { gate + 1 ≤ D.size disk.old }

    // This holds of a disk on which all that was written is synced.
    ensures any_moment { D.honest disk.old → LeavesJust (D.seen disk.old) (D.may_leave disk.old)
        → LeavesOnly D.Disk disk.old disk.new (IsLeftInShutting (D.seen disk.old) gate) }
    ensures settled { D.honest disk.old → LeavesJust (D.seen disk.old) (D.may_leave disk.old)
        → OnOk result (LeavesJust (D.seen disk.new) (D.may_leave disk.new)) }

    ensures closed { D.honest disk.old → OnOk result (IsGateShut (D.seen disk.new) gate) }
    ensures torn { D.honest disk.old → IsTorn gate 1 (D.seen disk.old) (D.seen disk.new) }

    ensures made { D.honest disk.old
        → OnOk result (Shuts (D.seen disk.old) gate 0 (D.calls disk.old) (D.calls disk.new)) }
    ensures device { AsksAtMost D.Disk 1 1 1 result disk.old disk.new }
{
    let mut byte = [0];
    disk.read_at(gate, &mut byte)?;
    if byte[0] != 1 {
        return Ok(());
    }
    disk.write_at(gate, &[0])?;
    disk.sync()
}
