//! A disk in memory when memory runs out.
use fe_disk::{Disk, MemoryDisk};
use std::process::Abort;
use std::test::Fail;

/// The size of a store's device, in bytes.
pub const DEVICE_BYTES: usize = 4_202_496;

/// The offset at which the disk is read and written, two bytes each time.
const AT: usize = 7;

fn found(rt: &impl Abort, disk: &mut MemoryDisk) -> [u8; 2] {
    let mut found = [0; 2];
    assert!(rt; disk.size() == 16);
    assert!(rt; disk.read_at(AT, &mut found).is_ok());
    found
}

// A write is a device fault if memory for the bytes that it replaces runs out, and leaves the disk unchanged.
// A sync takes no memory. `rt try --test --fail-alloc N`, for N from 1 on, refuses the Nth allocation.
fn check_faults(rt: &impl Abort, disk: &mut MemoryDisk) {
    let mut faults = 0;
    for byte in 1..20 {
        let before = found(rt, disk);
        assert!(rt; disk.size() == 16);
        let want = match disk.write_at(AT, &[byte, byte]) {
            Ok(()) => [byte, byte],
            Err(_) => {
                faults = 1;
                before
            }
        };
        assert!(rt; disk.failures() == faults && found(rt, disk) == want);
        assert!(rt; disk.sync().is_ok() && disk.failures() == faults);
    }
}

#[test]
fn faults_where_memory_ends(rt: HostRuntime) -> Result<(), Fail> {
    let mut disk = MemoryDisk::new(rt.alloc(), 16)?;
    check_faults(&rt, &mut disk);
    drop(disk);
    assert!(rt; MemoryDisk::new(rt.alloc(), usize::MAX / 2).is_err());
    Ok(())
}
