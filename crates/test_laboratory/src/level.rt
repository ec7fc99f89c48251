//! What a script calls: a disk by itself, a journal, a keeper or a desk.

use crate::act::Act;
use crate::made::Made;
use crate::trouble::Trouble;
use crate::{desks, disks, journals, keepers};
use fe_disk::Disk;
use fe_keeper::Fault;
use std::alloc::Global;

/// What is called.
#[derive(Clone, Copy, PartialEq, Eq)]
pub enum Level {
    Disk,
    Journal,
    Keeper,
    Desk,
}

impl Level {
    /// The level with this name.
    pub fn of(word: &str) -> Result<Level, Trouble> {
        match word {
            "disk" => Ok(Level::Disk),
            "journal" => Ok(Level::Journal),
            "keeper" => Ok(Level::Keeper),
            "desk" => Ok(Level::Desk),
            _ => Err(Trouble::Syntax),
        }
    }

    /// Makes the calls on the disk, which has a store, except at the level of a disk. `start` is the image of
    /// the state in a desk's store.
    pub fn made<D: Disk>(
        self,
        alloc: Global,
        disk: D,
        acts: &[Act],
        start: &[u8],
    ) -> (D, Result<Made, Trouble>) {
        match self {
            Level::Disk => disks::made(alloc, disk, acts),
            Level::Journal => journals::made(alloc, disk, acts),
            Level::Keeper => keepers::made(alloc, disk, acts),
            Level::Desk => desks::made(alloc, disk, acts, start),
        }
    }

    /// What is found on the disk: the contents of a journal, or the image of the state in the store.
    pub fn found<D: Disk>(self, alloc: Global, disk: D) -> (D, Result<Vec<u8>, Fault>) {
        match self {
            Level::Journal => journals::held(alloc, disk),
            Level::Desk => desks::found(alloc, disk),
            _ => keepers::found(alloc, disk),
        }
    }

    /// Makes a store on the disk, if it has none. Returns whether there was a fault.
    pub fn formatted<D: Disk>(self, alloc: Global, disk: D) -> (D, bool) {
        match self {
            Level::Desk => desks::formatted(alloc, disk),
            _ => keepers::formatted(alloc, disk),
        }
    }
}
