//! A disk that passes on to another disk the calls that a policy lets through, and fails the others
//! (`docs/proved.md`, "The store").

ghost use Rattle.std.specs.Prelude.{◌≡◌, ◌↔◌, ◌-◌, ◌^◌, ◌<◌, IsTrue};

use crate::faults::{count, fault};
use crate::{Asked, DeviceFault, Disk, Policy};

/// A disk under a policy. The policy passes some calls on to the disk; every other call fails, and the disk
/// is left alone.
///
/// What a read gives and what a stop may leave are those of the disk, so a call that isn't passed on changes
/// no byte and syncs none. The count of faults starts with the disk's. At `u64::MAX` every call fails.
#[derive(Drop)]
pub struct Guarded<D, P> {
    inner: D,
    policy: P,
    failures: u64,
}

impl<D: Disk, P: Policy> Guarded<D, P> {
    ghost use Rattle.fe_disk.specs.Guarded.{disk_of, policy_of, fault_count};

    /// A disk that passes on to `inner` the calls that `policy` lets through.
    pub fn new(inner: D, policy: P) -> Guarded<D, P>
        ensures disk { disk_of result ≡ inner }
        ensures policy { policy_of result ≡ policy }
        ensures failures { fault_count result ≡ D.failures inner }
    {
        let failures = inner.failures();
        Guarded {
            inner,
            policy,
            failures,
        }
    }

    // Counts a call in the policy, and says whether it is passed on.
    fn admits(&mut self, asked: Asked) -> bool
        ensures passes { IsTrue result ↔ (P.passes self.old.policy × (self.old.failures < 2 ^ 64 - 1)) }
        ensures next { self.new.policy ≡ P.next self.old.policy }
        ensures disk { self.new.inner ≡ self.old.inner }
        ensures failures { self.new.failures ≡ self.old.failures }
    {
        self.policy.admit(asked) && self.failures < u64::MAX
    }
}

impl<D: Disk, P: Policy + Drop> Guarded<D, P> {
    ghost use Rattle.fe_disk.specs.Guarded.{disk_of};

    /// The disk below, as the calls that were passed on left it.
    pub fn into_inner(self) -> D
        ensures { result ≡ disk_of self }
    {
        let Guarded {
            inner,
            policy: _,
            failures: _,
        } = self;
        inner
    }
}

impl<D: Disk, P: Policy> Disk for Guarded<D, P> {
    ghost use Rattle.std.specs.Prelude.{◌≡◌, ◌+◌, ◌≤◌, length, OnOk};
    ghost use Rattle.fe_disk.specs.Disk.{bytes_at, after_write, IsTorn, Follows, AddsNone, LeavesJust};
    ghost use Rattle.fe_disk.specs.Disk.{EndsCall};
    ghost use Rattle.fe_disk.specs.Runs.{HasElapsed};
    ghost use Rattle.fe_disk.specs.Guarded.{disk_of, fault_count, inner, inner_holds, Guards};

    ghost size = { inner D.size };

    ghost failures = { fault_count };

    ghost calls = { inner D.calls };

    ghost honest = { inner_holds D.honest };

    ghost seen = { λ disk. D.seen (disk_of disk) };

    ghost may_leave = { λ disk. D.may_leave (disk_of disk) };

    ghost moment = { λ disk. D.moment (disk_of disk) };

    ghost left_since = { λ disk. D.left_since (disk_of disk) };

    ghost seen_is_image = { λ disk. D.seen_is_image (disk_of disk) };

    ghost left_is_image = { λ disk. D.left_is_image (disk_of disk) };

    ghost seen_may_stay = { λ disk. D.seen_may_stay (disk_of disk) };

    ghost counts_now = { λ disk. D.counts_now (disk_of disk) };

    ghost only_now = { λ disk. D.only_now (disk_of disk) };

    fn size(&self) -> usize {
        self.inner.size()
    }

    fn failures(&self) -> u64 {
        self.failures
    }

    fn read_at(&mut self, at: usize, buffer: &mut [u8]) -> Result<(), DeviceFault>
        requires { at + length buffer.old ≤ D.size (disk_of self.old) }
        ensures read { D.honest (disk_of self.old)
            → OnOk result (buffer.new ≡ bytes_at (D.seen (disk_of self.old)) at (length buffer.old)) }
        ensures same { D.honest (disk_of self.old) → D.seen (disk_of self.new) ≡ D.seen (disk_of self.old) }
        ensures stop { D.honest (disk_of self.old)
            → AddsNone (D.may_leave (disk_of self.old)) (D.may_leave (disk_of self.new)) }
        ensures time { D.honest (disk_of self.old) → HasElapsed D.Disk (disk_of self.old) (disk_of self.new) }
        ensures device { EndsCall (inner D.size) fault_count (inner D.calls) (inner_holds D.honest)
            1 0 0 result self.old self.new }
        ensures guard { Guards P.passes P.next D.Disk result self.old self.new }
    {
        if !self.admits(Asked::Read) {
            return Err(fault(&mut self.failures));
        }
        let outcome = self.inner.read_at(at, buffer);
        count(&mut self.failures, outcome)
    }

    fn write_at(&mut self, at: usize, bytes: &[u8]) -> Result<(), DeviceFault>
        requires { at + length bytes.now ≤ D.size (disk_of self.old) }
        ensures written { D.honest (disk_of self.old)
            → OnOk result (D.seen (disk_of self.new) ≡ after_write (D.seen (disk_of self.old)) at bytes.now) }
        ensures torn { D.honest (disk_of self.old)
            → IsTorn at (length bytes.now) (D.seen (disk_of self.old)) (D.seen (disk_of self.new)) }
        ensures stop { D.honest (disk_of self.old)
            → Follows (IsTorn at (length bytes.now)) (D.may_leave (disk_of self.old))
            (D.may_leave (disk_of self.new)) }
        ensures time { D.honest (disk_of self.old) → HasElapsed D.Disk (disk_of self.old) (disk_of self.new) }
        ensures device { EndsCall (inner D.size) fault_count (inner D.calls) (inner_holds D.honest)
            0 1 0 result self.old self.new }
        ensures guard { Guards P.passes P.next D.Disk result self.old self.new }
    {
        if !self.admits(Asked::Write) {
            return Err(fault(&mut self.failures));
        }
        let outcome = self.inner.write_at(at, bytes);
        count(&mut self.failures, outcome)
    }

    fn sync(&mut self) -> Result<(), DeviceFault>
        ensures durable { D.honest (disk_of self.old)
            → OnOk result (LeavesJust (D.seen (disk_of self.new)) (D.may_leave (disk_of self.new))) }
        ensures same { D.honest (disk_of self.old) → D.seen (disk_of self.new) ≡ D.seen (disk_of self.old) }
        ensures stop { D.honest (disk_of self.old)
            → AddsNone (D.may_leave (disk_of self.old)) (D.may_leave (disk_of self.new)) }
        ensures time { D.honest (disk_of self.old) → HasElapsed D.Disk (disk_of self.old) (disk_of self.new) }
        ensures device { EndsCall (inner D.size) fault_count (inner D.calls) (inner_holds D.honest)
            0 0 1 result self.old self.new }
        ensures guard { Guards P.passes P.next D.Disk result self.old self.new }
    {
        if !self.admits(Asked::Sync) {
            return Err(fault(&mut self.failures));
        }
        let outcome = self.inner.sync();
        count(&mut self.failures, outcome)
    }

    fn rely_on(&mut self, at: usize, bytes: &[u8]) {
        self.inner.rely_on(at, bytes);
    }
}
