//! Formatting and opening when memory runs out: the disk is returned, and a second try with memory succeeds.
//! A first try may fail only for lack of memory. `rt try --test --fail-alloc N`, for N from 1 on, refuses the
//! Nth allocation.
use crate::disk::DEVICE_BYTES;
use fe_disk::{Disk, MemoryDisk};
use fe_journal::{Blank, Found, Journal, StoreFault, Unopened};
use std::alloc::Global;
use std::process::Abort;
use std::test::Fail;

/// The image of the first state (`docs/formats.md`, "Image").
const EMPTY: [u8; 24] = [
    0, 0, 0, 0, 0, 0, 0, 0, 0, 0, 0, 0, 0, 0, 0, 1, 0, 0, 0, 0, 0, 0, 0, 0,
];

// Whether memory ran out: in the journal, or in the disk for its record of a call, which is then a fault of
// the device.
fn wants_memory(fault: StoreFault, disk: &MemoryDisk) -> bool {
    match fault {
        StoreFault::NoMemory(_) => disk.failures() == 0,
        StoreFault::Device => disk.failures() == 1,
        StoreFault::Unformatted | StoreFault::Damaged { offset: _ } => false,
    }
}

// The disk, which opening finds unformatted.
fn blank_at_once(rt: &impl Abort, alloc: Global, disk: MemoryDisk) -> Blank<MemoryDisk> {
    let Err(Unopened::Blank(blank)) = Journal::find(alloc, disk) else {
        panic!(rt; "no unformatted disk");
    };
    blank
}

// The disk, which opening finds unformatted, at the latest at the second try.
fn blank(rt: &impl Abort, alloc: Global, disk: MemoryDisk) -> Blank<MemoryDisk> {
    match Journal::find(alloc, disk) {
        Err(Unopened::Blank(blank)) => blank,
        Err(Unopened::Refused(fault, disk)) => {
            assert!(rt; wants_memory(fault, &disk));
            blank_at_once(rt, alloc, disk)
        }
        Ok(found) => {
            drop(found);
            panic!(rt; "no unformatted disk");
        }
    }
}

fn formatted(rt: &impl Abort, alloc: Global, disk: MemoryDisk) -> MemoryDisk {
    match Journal::format(alloc, blank(rt, alloc, disk)) {
        Ok(journal) => journal.into_disk(),
        Err((fault, disk)) => {
            assert!(rt; wants_memory(fault, &disk));
            Journal::format(alloc, blank(rt, alloc, disk))
                .ok()
                .expect(rt, "formatted")
                .into_disk()
        }
    }
}

fn found_again(rt: &impl Abort, alloc: Global, disk: MemoryDisk) -> Found<MemoryDisk> {
    match Journal::find(alloc, disk) {
        Ok(found) => found,
        Err(unopened) => {
            let (fault, disk) = unopened.into_parts(StoreFault::Unformatted);
            assert!(rt; wants_memory(fault, &disk));
            Journal::find(alloc, disk).ok().expect(rt, "found")
        }
    }
}

// Whether the store is new.
fn is_new(found: Found<MemoryDisk>) -> bool {
    let Found {
        journal,
        image,
        groups,
    } = found;
    let is_new = journal.generation() == 1
        && image.as_slice() == EMPTY.as_slice()
        && groups.payload().is_none();
    drop(journal);
    drop(image);
    drop(groups);
    is_new
}

#[test]
fn store_where_memory_ends(rt: HostRuntime) -> Result<(), Fail> {
    let disk = match MemoryDisk::new(rt.alloc(), DEVICE_BYTES) {
        Ok(disk) => disk,
        Err(_) => MemoryDisk::new(rt.alloc(), DEVICE_BYTES)?,
    };
    let disk = formatted(&rt, rt.alloc(), disk);
    assert!(rt; is_new(found_again(&rt, rt.alloc(), disk)));
    Ok(())
}
