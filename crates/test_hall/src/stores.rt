//! New stores in memory.

use fe_disk::{Disk, MemoryDisk};
use fe_keeper::{Keeper, Unopened};
use std::alloc::Global;
use std::process::Abort;

/// A disk of a store's size.
pub fn new_disk(rt: &impl Abort, alloc: Global) -> MemoryDisk {
    MemoryDisk::new(alloc, 4_202_496).ok().expect(rt, "a disk")
}

/// A new store on a disk that has none.
pub fn formatted<D: Disk + Drop>(rt: &impl Abort, alloc: Global, disk: D) -> Keeper<D> {
    let Err(Unopened::Blank(blank)) = Keeper::open_or_blank(alloc, disk) else {
        panic!(rt; "no unformatted disk");
    };
    Keeper::format(alloc, blank).ok().expect(rt, "formatted")
}

/// A new store.
pub fn new_store(rt: &impl Abort, alloc: Global) -> Keeper<MemoryDisk> {
    formatted(rt, alloc, new_disk(rt, alloc))
}
