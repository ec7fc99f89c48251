//! A disk that counts its calls.

use fe_disk::{DeviceFault, Disk};

/// The number of calls of each kind.
#[derive(Clone, Copy, PartialEq, Eq)]
pub struct Counts {
    pub reads: u64,
    pub writes: u64,
    pub syncs: u64,
}

impl Counts {
    /// No calls.
    pub const NONE: Counts = Counts {
        reads: 0,
        writes: 0,
        syncs: 0,
    };

    /// The number of all calls.
    pub fn total(self) -> u64 {
        self.reads
            .saturating_add(self.writes)
            .saturating_add(self.syncs)
    }
}

/// Passes each call on to its disk, and counts it.
#[derive(Drop)]
pub struct Tally<D> {
    inner: D,
    counts: Counts,
}

impl<D: Disk> Tally<D> {
    /// The disk, with no calls counted yet.
    pub fn new(inner: D) -> Tally<D> {
        Tally {
            inner,
            counts: Counts::NONE,
        }
    }

    /// The disk, and the numbers of its calls.
    pub fn into_parts(self) -> (D, Counts) {
        let Tally { inner, counts } = self;
        (inner, counts)
    }
}

impl<D: Disk> Disk for Tally<D> {
    ghost size = { λ tally. D.size tally.inner };

    ghost failures = { λ tally. D.failures tally.inner };

    ghost calls = { λ tally. D.calls tally.inner };

    ghost honest = { λ tally. D.honest tally.inner };

    ghost seen = { λ tally. D.seen tally.inner };

    ghost may_leave = { λ tally. D.may_leave tally.inner };

    ghost moment = { λ tally. D.moment tally.inner };

    ghost left_since = { λ tally. D.left_since tally.inner };

    ghost seen_is_image = { λ tally. D.seen_is_image tally.inner };

    ghost left_is_image = { λ tally. D.left_is_image tally.inner };

    ghost seen_may_stay = { λ tally. D.seen_may_stay tally.inner };

    ghost counts_now = { λ tally. D.counts_now tally.inner };

    ghost only_now = { λ tally. D.only_now tally.inner };

    fn size(&self) -> usize {
        self.inner.size()
    }

    fn failures(&self) -> u64 {
        self.inner.failures()
    }

    fn read_at(&mut self, at: usize, buffer: &mut [u8]) -> Result<(), DeviceFault> {
        self.counts.reads = self.counts.reads.saturating_add(1);
        self.inner.read_at(at, buffer)
    }

    fn write_at(&mut self, at: usize, bytes: &[u8]) -> Result<(), DeviceFault> {
        self.counts.writes = self.counts.writes.saturating_add(1);
        self.inner.write_at(at, bytes)
    }

    fn sync(&mut self) -> Result<(), DeviceFault> {
        self.counts.syncs = self.counts.syncs.saturating_add(1);
        self.inner.sync()
    }

    fn rely_on(&mut self, at: usize, bytes: &[u8]) {
        self.inner.rely_on(at, bytes);
    }
}
