//! Formatting that stops, or meets a fault, at each device call, and is repeated.

use crate::trial::{PLENTY, TORN, Trial};
use crate::trouble::Trouble;
use fe_disk::{FailOnce, Fuse, Guarded, MemoryDisk, Torn};
use fe_keeper::Fault;

/// The image of the first state (`docs/formats.md`, "Image").
const EMPTY: [u8; 24] = [
    0, 0, 0, 0, 0, 0, 0, 0, 0, 0, 0, 0, 0, 0, 0, 1, 0, 0, 0, 0, 0, 0, 0, 0,
];

impl<'a> Trial<'a> {
    // Whether formatting the disk makes a store of the first state.
    fn is_made_new(&self, disk: MemoryDisk) -> Result<bool, Trouble> {
        let (disk, is_met) = self.level.formatted(self.alloc, disk);
        let found = self.left(&disk, Torn::Kept);
        drop(disk);
        match found? {
            Ok(image) => Ok(!is_met && image.as_slice() == EMPTY.as_slice()),
            Err(_) => Ok(false),
        }
    }

    // Whether a stop leaves no store, one of the first state, or the old one; and whether formatting then
    // succeeds.
    fn is_format_left(&self, disk: &MemoryDisk, torn: Torn) -> Result<bool, Trouble> {
        let is_left = match self.left(disk, torn)? {
            Ok(image) => image.as_slice() == self.start || image.as_slice() == EMPTY.as_slice(),
            Err(fault) => fault == Fault::Unformatted,
        };
        Ok(is_left && self.is_made_new(disk.stopped(torn)?)?)
    }

    fn are_formats_left(&self, disk: &MemoryDisk) -> Result<bool, Trouble> {
        for torn in TORN {
            if !self.is_format_left(disk, torn)? {
                return Ok(false);
            }
        }
        Ok(true)
    }

    // Whether formatting that stops after this many device calls leaves what it may, and whether it was
    // stopped.
    fn format_stopped(&self, calls: u64) -> Result<(bool, bool), Trouble> {
        let fuse = Guarded::new(self.store.stopped(Torn::Kept)?, Fuse::new(calls));
        let (fuse, is_met) = self.level.formatted(self.alloc, fuse);
        let disk = fuse.into_inner();
        let is_left = self.are_formats_left(&disk);
        drop(disk);
        Ok((is_left?, is_met))
    }

    // Whether formatting succeeds after an attempt in which one device call failed, and whether one failed.
    fn format_failing(&self, calls: u64) -> Result<(bool, bool), Trouble> {
        let once = Guarded::new(self.store.stopped(Torn::Kept)?, FailOnce::new(calls));
        let (once, is_met) = self.level.formatted(self.alloc, once);
        Ok((self.is_made_new(once.into_inner())?, is_met))
    }

    /// How many device calls of formatting were stopped and failed, or the first after which something was
    /// wrong.
    pub fn format_each(&self) -> Result<Result<u64, u64>, Trouble> {
        for calls in 0..PLENTY {
            let (is_left, is_met) = self.format_stopped(calls)?;
            let (is_again, has_failed) = self.format_failing(calls)?;
            if !is_left || !is_again || is_met != has_failed {
                return Ok(Err(calls));
            }
            if !is_met {
                return Ok(Ok(calls));
            }
        }
        Ok(Err(PLENTY))
    }
}
