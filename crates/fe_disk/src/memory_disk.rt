//! A disk in memory, for `femem run`, `femem look` and tests. It records its writes and syncs, so that
//! `stopped` can make the disk that a stop leaves (`docs/model.md`, "The disk"). An image is all bytes of a
//! disk.

ghost use Rattle.std.specs.Prelude.{◌≡◌, ◌⊎◌, ◌+◌, ◌-◌, ◌^◌, ◌≤◌, ◌↔◌, length, IfOk, IsErr, OnOk, OnErr};
ghost use Rattle.fe_disk.specs.Disk.{bytes_at, after_write, IsTorn, Follows, AddsNone, LeavesJust, Elapses};
ghost use Rattle.fe_disk.specs.Disk.{Rises, EndsCall};
ghost use Rattle.fe_disk.specs.Memory.{size_of, failures_of, calls_of, seen_of, moment_of, IsHonest};
ghost use Rattle.fe_disk.specs.Memory.{LeavesNow, LeavesSince, IsLeftBy, IsFresh, IsBlank, disk_after_read};
ghost use Rattle.fe_disk.specs.Memory.{disk_after_write, disk_after_sync, disk_after_fault};
ghost use Rattle.fe_disk.specs.within.Memory.{seen_may_stay_law, left_is_image_law, counts_now_law};
ghost use Rattle.fe_disk.specs.within.Memory.{only_now_law};

use crate::faults::fault;
use crate::record::{Record, replace};
use crate::{Calls, DeviceFault, Disk};
use fe_memory::OutOfMemory;
use std::alloc::Global;
use std::marker::Model;

/// What a stop does to the ranges that were written since the last sync that succeeded.
#[derive(Clone, Copy, PartialEq, Eq)]
pub enum Torn {
    /// The ranges are as written.
    Kept,
    /// The ranges are as they were at that sync.
    Lost,
    /// Every byte of the ranges is this one.
    Byte(u8),
}

/// A disk in memory. Beside its bytes it keeps those that the writes since the last sync replaced. A write
/// that finds no memory for them fails and does nothing.
#[derive(Drop)]
pub struct MemoryDisk {
    alloc: Global,
    bytes: Vec<u8>,
    record: Record,
    calls: Calls,
    failures: u64,
}

impl Model for MemoryDisk {
    ghost use Rattle.fe_disk.specs.Memory.{MemoryState};

    ghost Value = { MemoryState };

    ghost use Rattle.fe_disk.specs.within.Memory.{state_of, IsRecord};

    ghost view = { state_of };

    ghost invariant = { IsRecord };
}

impl MemoryDisk {
    /// A disk of this many bytes, all of them zero.
    pub fn new(alloc: Global, size: usize) -> Result<MemoryDisk, OutOfMemory>
        ensures blank { IfOk result (IsBlank size) }
        ensures honest { IfOk result IsHonest }
        ensures durable { IfOk result (λ disk. LeavesJust disk.image (LeavesNow disk)) }
    {
        Ok(MemoryDisk {
            alloc,
            bytes: vec![in alloc; 0; size]?,
            record: Record::new(alloc),
            calls: Calls::NONE,
            failures: 0,
        })
    }

    /// A disk with these bytes, no calls and no faults.
    pub fn over(alloc: Global, bytes: Vec<u8>) -> MemoryDisk
        ensures image { result.image ≡ bytes.items }
        ensures fresh { IsFresh result }
        ensures honest { IsHonest result }
        ensures durable { LeavesJust result.image (LeavesNow result) }
    {
        MemoryDisk {
            alloc,
            bytes,
            record: Record::new(alloc),
            calls: Calls::NONE,
            failures: 0,
        }
    }

    /// The disk that a stop now leaves if this happens to the ranges that were written since the last sync
    /// that succeeded. It is a new disk, with no calls and no faults.
    pub fn stopped(&self, torn: Torn) -> Result<MemoryDisk, OutOfMemory>
        ensures left { IfOk result (λ disk. IsLeftBy torn self.now.image self.now.events disk.image) }

        // It is one of the images that the model allows now.
        ensures allowed { IfOk result (λ disk. LeavesNow self.now disk.image) }

        ensures size { IfOk result (λ disk. length disk.image ≡ length self.now.image) }
        ensures fresh { IfOk result IsFresh }
        ensures honest { IfOk result IsHonest }
        ensures durable { IfOk result (λ disk. LeavesJust disk.image (LeavesNow disk)) }
    {
        Ok(MemoryDisk {
            alloc: self.alloc,
            bytes: self.record.torn_copy(self.alloc, torn, &self.bytes)?,
            record: Record::new(self.alloc),
            calls: Calls::NONE,
            failures: 0,
        })
    }

    fn put(&mut self, at: usize, bytes: &[u8]) -> Result<(), DeviceFault>
        requires { at + length bytes.now ≤ length self.old.image }
        ensures ok { OnOk result (self.new ≡ disk_after_write self.old at bytes.now) }
        ensures err { OnErr result (self.new ≡ disk_after_fault self.old) }
        ensures fault { IsErr result ↔ Rises self.old.failures self.new.failures }
        ensures honest { IsHonest self.old }
    {
        if self.failures == u64::MAX
            || self.calls.writes == u64::MAX
            || self
                .record
                .wrote(self.alloc, &self.bytes, at, bytes.len())
                .is_err()
        {
            return Err(fault(&mut self.failures));
        }
        self.calls.writes += 1;
        replace(&mut self.bytes, at, bytes);
        Ok(())
    }
}

impl Disk for MemoryDisk {
    ghost size = { size_of };

    ghost failures = { failures_of };

    ghost calls = { calls_of };

    ghost honest = { IsHonest };

    ghost seen = { seen_of };

    ghost may_leave = { LeavesNow };

    ghost moment = { moment_of };

    ghost left_since = { LeavesSince };

    ghost seen_is_image = { λ disk honest. honest };

    ghost left_is_image = { λ disk t image honest left. left_is_image_law
        (length disk.image) disk.image disk.events t image left };

    ghost seen_may_stay = { λ disk honest. seen_may_stay_law disk.image disk.events honest };

    ghost counts_now = { λ disk t image honest now may. counts_now_law
        (length disk.image) disk.image disk.events t image now may };

    ghost only_now = { λ disk image honest left. only_now_law
        (length disk.image) disk.image disk.events image left };

    fn size(&self) -> usize {
        self.bytes.len()
    }

    fn failures(&self) -> u64 {
        self.failures
    }

    fn read_at(&mut self, at: usize, buffer: &mut [u8]) -> Result<(), DeviceFault>
        requires { at + length buffer.old ≤ length self.old.image }
        ensures read { IsHonest self.old → OnOk result
            (buffer.new ≡ bytes_at self.old.image at (length buffer.old)) }
        ensures same { IsHonest self.old → self.new.image ≡ self.old.image }
        ensures stop { IsHonest self.old → AddsNone (LeavesNow self.old) (LeavesNow self.new) }
        ensures time { IsHonest self.old → Elapses moment_of LeavesSince LeavesNow self.old self.new }
        ensures device { EndsCall size_of failures_of calls_of IsHonest 1 0 0 result self.old self.new }

        // A read takes no memory, so it fails exactly if the count of faults, or that of reads, is at its
        // top.
        ensures only_at_top { IsErr result ↔ ((self.old.failures ≡ 2 ^ 64 - 1)
            ⊎ (self.old.calls.reads ≡ 2 ^ 64 - 1)) }
        ensures ok { OnOk result (self.new ≡ disk_after_read self.old) }
        ensures err { OnErr result (self.new ≡ disk_after_fault self.old) }
    {
        if self.failures == u64::MAX || self.calls.reads == u64::MAX {
            return Err(fault(&mut self.failures));
        }
        self.calls.reads += 1;
        buffer.copy_from_slice(&self.bytes[at..at + buffer.len()]);
        Ok(())
    }

    fn write_at(&mut self, at: usize, bytes: &[u8]) -> Result<(), DeviceFault>
        requires { at + length bytes.now ≤ length self.old.image }
        ensures written { IsHonest self.old → OnOk result
            (self.new.image ≡ after_write self.old.image at bytes.now) }
        ensures torn { IsHonest self.old → IsTorn at (length bytes.now) self.old.image self.new.image }
        ensures stop { IsHonest self.old
            → Follows (IsTorn at (length bytes.now)) (LeavesNow self.old) (LeavesNow self.new) }
        ensures time { IsHonest self.old → Elapses moment_of LeavesSince LeavesNow self.old self.new }
        ensures device { EndsCall size_of failures_of calls_of IsHonest 0 1 0 result self.old self.new }

        // The record has one write more, or only the fault was counted.
        ensures ok { OnOk result (self.new ≡ disk_after_write self.old at bytes.now) }
        ensures err { OnErr result (self.new ≡ disk_after_fault self.old) }
    {
        self.put(at, bytes)
    }

    fn sync(&mut self) -> Result<(), DeviceFault>
        ensures durable { IsHonest self.old → OnOk result (LeavesJust self.new.image (LeavesNow self.new)) }
        ensures same { IsHonest self.old → self.new.image ≡ self.old.image }
        ensures stop { IsHonest self.old → AddsNone (LeavesNow self.old) (LeavesNow self.new) }
        ensures time { IsHonest self.old → Elapses moment_of LeavesSince LeavesNow self.old self.new }
        ensures device { EndsCall size_of failures_of calls_of IsHonest 0 0 1 result self.old self.new }

        // A sync takes no memory, so it fails exactly if the count of faults, or that of syncs, is at its
        // top.
        ensures only_at_top { IsErr result ↔ ((self.old.failures ≡ 2 ^ 64 - 1)
            ⊎ (self.old.calls.syncs ≡ 2 ^ 64 - 1)) }

        // The record has one sync more, or only the fault was counted.
        ensures ok { OnOk result (self.new ≡ disk_after_sync self.old) }
        ensures err { OnErr result (self.new ≡ disk_after_fault self.old) }
    {
        if self.failures == u64::MAX || self.calls.syncs == u64::MAX {
            return Err(fault(&mut self.failures));
        }
        self.record.synced();
        self.calls.syncs += 1;
        Ok(())
    }

    fn rely_on(&mut self, _at: usize, _bytes: &[u8]) {}
}
