//! Calls on copies of a disk that stops or fails at a device call.

use crate::act::Act;
use crate::level::Level;
use crate::made::Made;
use crate::tally::{Counts, Tally};
use crate::trouble::Trouble;
use fe_disk::{Disk, FailOnce, Fuse, Guarded, MemoryDisk, Torn};
use fe_keeper::Fault;
use std::alloc::Global;

/// What a stop may do to unsynced bytes.
pub const TORN: [Torn; 4] = [Torn::Kept, Torn::Lost, Torn::Byte(0x01), Torn::Byte(0x37)];

/// More device calls than any run makes.
pub const PLENTY: u64 = 100;

/// How many device calls an opening makes (`docs/store.md`, "Opening a store").
const OPENING: u64 = 5;

/// Calls on a store.
#[derive(Clone, Copy)]
pub struct Trial<'a> {
    pub alloc: Global,
    pub level: Level,
    pub store: &'a MemoryDisk,
    pub acts: &'a [Act],
    /// What is found in the store at first.
    pub start: &'a [u8],
}

/// The result of the calls, and the disk after them.
#[derive(Drop)]
pub struct Run {
    pub disk: MemoryDisk,
    pub made: Made,
    pub counts: Counts,
    pub failures: u64,
}

/// The stops that are tried after a run.
#[derive(Clone, Copy)]
pub enum Stops {
    /// All kinds, with a stop at each device call of the opening that follows.
    Each,
    /// Only this kind.
    One(Torn),
}

impl<'a> Trial<'a> {
    /// Makes the calls on a disk that stops after this many device calls.
    pub fn fused(&self, calls: u64) -> Result<Run, Trouble> {
        let copy = self.store.stopped(Torn::Kept)?;
        let fuse = Guarded::new(Tally::new(copy), Fuse::new(calls));
        let (fuse, made) = self.level.made(self.alloc, fuse, self.acts, self.start);
        let failures = fuse.failures();
        let (disk, counts) = fuse.into_inner().into_parts();
        ran(disk, made, counts, failures)
    }

    /// Makes the calls on a disk that fails the device call after this many.
    pub fn failing(&self, calls: u64) -> Result<Run, Trouble> {
        let copy = self.store.stopped(Torn::Kept)?;
        let once = Guarded::new(Tally::new(copy), FailOnce::new(calls));
        let (once, made) = self.level.made(self.alloc, once, self.acts, self.start);
        let failures = once.failures();
        let (disk, counts) = once.into_inner().into_parts();
        ran(disk, made, counts, failures)
    }

    /// What is found on the disk after a stop of this kind.
    pub fn left(&self, disk: &MemoryDisk, torn: Torn) -> Result<Result<Vec<u8>, Fault>, Trouble> {
        let copy = disk.stopped(torn)?;
        let (copy, found) = self.level.found(self.alloc, copy);
        drop(copy);
        Ok(found)
    }

    // Whether a stop of this kind leaves what is allowed.
    fn leaves(&self, disk: &MemoryDisk, torn: Torn, made: &Made) -> Result<bool, Trouble> {
        match self.left(disk, torn)? {
            Ok(image) => Ok(made.allows(image.as_slice(), self.start)),
            Err(_) => Ok(false),
        }
    }

    // Whether a stop of this kind, and then one at each device call of an opening in turn, leave what is
    // allowed.
    fn leaves_behind_stops(
        &self,
        disk: &MemoryDisk,
        torn: Torn,
        made: &Made,
    ) -> Result<bool, Trouble> {
        let mut left = disk.stopped(torn)?;
        for calls in 0..OPENING {
            let fuse = Guarded::new(left, Fuse::new(calls));
            let (fuse, found) = self.level.found(self.alloc, fuse);
            let is_met = matches!(found, Err(Fault::Device));
            drop(found);
            let stopped = fuse.into_inner();
            left = stopped.stopped(torn)?;
            drop(stopped);
            if !is_met {
                return Ok(false);
            }
        }
        self.leaves(&left, torn, made)
    }

    // Whether the run made this many device calls and met at most one fault, and every stop leaves what is
    // allowed.
    fn is_left(&self, run: &Run, calls: u64, stops: Stops) -> Result<bool, Trouble> {
        if !is_sound(run, calls) {
            return Ok(false);
        }
        match stops {
            Stops::One(torn) => self.leaves(&run.disk, torn, &run.made),
            Stops::Each => {
                for torn in TORN {
                    if !self.leaves_behind_stops(&run.disk, torn, &run.made)? {
                        return Ok(false);
                    }
                }
                Ok(true)
            }
        }
    }

    /// Stops the calls at each device call in turn, until a run is not stopped. Returns the number of stops,
    /// or the first after which something was wrong.
    pub fn fuse_each(&self, stops: Stops) -> Result<Result<u64, u64>, Trouble> {
        for calls in 0..PLENTY {
            let run = self.fused(calls)?;
            let is_good = self.is_left(&run, calls, stops);
            let is_met = run.made.fault.is_some();
            drop(run);
            if !is_good? {
                return Ok(Err(calls));
            }
            if !is_met {
                return Ok(Ok(calls));
            }
        }
        Ok(Err(PLENTY))
    }

    /// Lets each device call fail once, as `fuse_each` stops them.
    pub fn fail_once_each(&self) -> Result<Result<u64, u64>, Trouble> {
        for calls in 0..PLENTY {
            let run = self.failing(calls)?;
            let is_good = self.is_left(&run, calls, Stops::One(Torn::Kept));
            let is_met = run.made.fault.is_some();
            drop(run);
            if !is_good? {
                return Ok(Err(calls));
            }
            if !is_met {
                return Ok(Ok(calls));
            }
        }
        Ok(Err(PLENTY))
    }

    // After every kind of stop, makes the calls again and stops them at each device call.
    fn fuse_again(&self, run: &Run) -> Result<bool, Trouble> {
        for torn in TORN {
            let store = run.disk.stopped(torn)?;
            let told = self.again_over(&store, torn);
            drop(store);
            if told?.is_err() {
                return Ok(false);
            }
        }
        Ok(true)
    }

    fn again_over(&self, store: &MemoryDisk, torn: Torn) -> Result<Result<u64, u64>, Trouble> {
        let Ok(start) = self.left(store, Torn::Kept)? else {
            return Ok(Err(0));
        };
        let trial = Trial {
            alloc: self.alloc,
            level: self.level,
            store,
            acts: self.acts,
            start: start.as_slice(),
        };
        trial.fuse_each(Stops::One(torn))
    }

    /// Stops the calls at each device call, and then a second time.
    pub fn fuse_twice(&self) -> Result<Result<u64, u64>, Trouble> {
        for calls in 0..PLENTY {
            let run = self.fused(calls)?;
            let is_good = self.fuse_again(&run);
            let is_met = run.made.fault.is_some();
            drop(run);
            if !is_good? {
                return Ok(Err(calls));
            }
            if !is_met {
                return Ok(Ok(calls));
            }
        }
        Ok(Err(PLENTY))
    }
}

fn ran(
    disk: MemoryDisk,
    made: Result<Made, Trouble>,
    counts: Counts,
    failures: u64,
) -> Result<Run, Trouble> {
    match made {
        Ok(made) => Ok(Run {
            disk,
            made,
            counts,
            failures,
        }),
        Err(trouble) => {
            drop(disk);
            Err(trouble)
        }
    }
}

// Whether the run made this many device calls, and met no fault or exactly one, reported as a device fault.
fn is_sound(run: &Run, calls: u64) -> bool {
    let is_told = match run.made.fault {
        None => run.failures == 0,
        Some(fault) => fault == Fault::Device && run.failures == 1,
    };
    is_told && run.made.is_sound && run.counts.total() == calls
}
