//! The count of a disk's faults, its calls that failed (`docs/model.md`, "The disk").

ghost use Rattle.std.specs.Prelude.{◌≡◌, ◌↔◌, ◌+◌, ◌-◌, ◌^◌, ◌<◌, ◌≤◌, min, OnOk, IsErr};
ghost use Rattle.fe_disk.specs.Disk.{Rises};

use crate::DeviceFault;

/// Counts a fault. The count stays at `u64::MAX` once it is there.
pub fn fault(failures: &mut u64) -> DeviceFault
    ensures value { failures.new ≡ min (failures.old + 1) (2 ^ 64 - 1) }
    ensures fault { Rises failures.old failures.new }
    ensures one_fault { failures.new ≤ failures.old + 1 }
{
    *failures = failures.saturating_add(1);
    DeviceFault
}

/// Counts a fault if the outcome is one.
pub fn count<E: Drop>(failures: &mut u64, outcome: Result<(), E>) -> Result<(), DeviceFault>
    requires { failures.old < 2 ^ 64 - 1 }
    ensures same { IsErr result ↔ IsErr outcome }
    ensures fault { IsErr result ↔ Rises failures.old failures.new }
    ensures still { OnOk result (failures.new ≡ failures.old) }
    ensures one_fault { failures.new ≤ failures.old + 1 }
{
    match outcome {
        Ok(()) => Ok(()),
        Err(_) => Err(fault(failures)),
    }
}
