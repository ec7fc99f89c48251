//! Reading the parts of a store from which a copy is made, each in a read of its own
//! (`docs/store.md`, "A copy while the store is written").

ghost use Rattle.std.specs.Prelude.{◌≡◌, ◌+◌, ◌≤◌, length, slice_index, IfOk, OnOk};
ghost use Rattle.fe_disk.specs.Disk.{bytes_at, after_write};
ghost use Rattle.fe_journal.specs.Layout.{number_at};
ghost use Rattle.fe_look.specs.Reading.{OnlyAsks, ReadsJust};

use byteorder::{BigEndian, ByteOrder};
use fe_disk::{DeviceFault, Disk};

/// The byte at this offset.
pub(crate) fn read_byte<D: Disk>(disk: &mut D, at: usize) -> Result<u8, DeviceFault>
    requires within { at + 1 ≤ D.size disk.old }
    ensures byte { D.honest disk.old → IfOk result (λ byte. byte ≡ slice_index (D.seen disk.old) at) }
    ensures counts { OnOk result (ReadsJust 1 (D.calls disk.old) (D.calls disk.new)) }
    ensures device { OnlyAsks D.Disk result disk.old disk.new }
{
    let mut byte = [0];
    disk.read_at(at, &mut byte)?;
    Ok(byte[0])
}

/// The number in the four bytes from this offset on.
pub(crate) fn read_number<D: Disk>(disk: &mut D, at: usize) -> Result<u32, DeviceFault>
    requires within { at + 4 ≤ D.size disk.old }
    ensures number { D.honest disk.old → IfOk result (λ number. number ≡ number_at (D.seen disk.old) at 4) }
    ensures counts { OnOk result (ReadsJust 1 (D.calls disk.old) (D.calls disk.new)) }
    ensures device { OnlyAsks D.Disk result disk.old disk.new }
{
    let mut bytes = [0; 4];
    disk.read_at(at, &mut bytes)?;
    Ok(BigEndian::read_u32(&bytes))
}

/// Reads this many bytes of the disk from `at` on, to the same offset in `bytes`.
pub(crate) fn read_part<D: Disk>(
    disk: &mut D,
    bytes: &mut [u8],
    at: usize,
    count: usize,
) -> Result<(), DeviceFault>
    requires within { at + count ≤ D.size disk.old }
    requires room { at + count ≤ length bytes.old }
    ensures part { D.honest disk.old
        → OnOk result (bytes.new ≡ after_write bytes.old at (bytes_at (D.seen disk.old) at count)) }
    ensures same { length bytes.new ≡ length bytes.old }
    ensures counts { OnOk result (ReadsJust 1 (D.calls disk.old) (D.calls disk.new)) }
    ensures device { OnlyAsks D.Disk result disk.old disk.new }
{
    disk.read_at(at, &mut bytes[at..at + count])
}
