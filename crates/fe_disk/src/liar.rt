//! A disk that always reads the same bytes, for tests of a store over any bytes (`docs/proved.md`, "The
//! store").

ghost use Rattle.std.specs.Prelude.{◌≡◌, ◌⊎◌, ◌+◌, ◌-◌, ◌^◌, ◌≤◌, length, IsErr, OnOk};
ghost use Rattle.fe_disk.specs.Disk.{bytes_at, EndsCall};

use crate::faults::fault;
use crate::{Calls, DeviceFault, Disk};

/// A disk whose reads give a fixed list of bytes, whatever was written. A call fails only once the count of
/// its kind, or that of faults, is at `u64::MAX`. Nothing is claimed about what a stop leaves, so it is not
/// honest.
#[derive(Drop)]
pub struct Liar {
    bytes: Vec<u8>,
    calls: Calls,
    failures: u64,
}

impl Liar {
    ghost use Rattle.fe_disk.specs.Liar.{liar_bytes, calls_of};
    ghost use Rattle.fe_disk.specs.Memory.{none};

    /// A disk as long as the list.
    pub fn new(bytes: Vec<u8>) -> Liar
        ensures liar_bytes { liar_bytes result ≡ bytes.items }
        ensures calls { calls_of result ≡ none }
    {
        Liar {
            bytes,
            calls: Calls::NONE,
            failures: 0,
        }
    }
}

impl Disk for Liar {
    ghost use Rattle.fe_disk.specs.Liar.{liar_bytes, byte_count, calls_of, fault_count};

    ghost size = { byte_count };

    ghost failures = { fault_count };

    ghost calls = { calls_of };

    ghost honest = { λ disk. ⊥ };

    ghost seen = { liar_bytes };

    ghost may_leave = { λ disk image. ⊥ };

    ghost moment = { λ disk. 0 };

    ghost left_since = { λ disk t image. ⊥ };

    ghost seen_is_image = { λ disk honest. absurd honest };

    ghost left_is_image = { λ disk t image honest left. absurd honest };

    ghost seen_may_stay = { λ disk honest. absurd honest };

    ghost counts_now = { λ disk t image honest now may. absurd honest };

    ghost only_now = { λ disk image honest left. absurd honest };

    fn size(&self) -> usize {
        self.bytes.len()
    }

    fn failures(&self) -> u64 {
        self.failures
    }

    fn read_at(&mut self, at: usize, buffer: &mut [u8]) -> Result<(), DeviceFault>
        requires { at + length buffer.old ≤ byte_count self.old }
        ensures liar_bytes { OnOk result (buffer.new
            ≡ bytes_at (liar_bytes self.old) at (length buffer.old)) }
        ensures same { liar_bytes self.new ≡ liar_bytes self.old }
        ensures only_at_top { IsErr result
            → (fault_count self.old ≡ 2 ^ 64 - 1) ⊎ ((calls_of self.old).reads ≡ 2 ^ 64 - 1) }
        ensures device { EndsCall byte_count fault_count calls_of (λ disk. ⊥) 1 0 0 result self.old self.new }
    {
        if self.failures == u64::MAX || self.calls.reads == u64::MAX {
            return Err(fault(&mut self.failures));
        }
        self.calls.reads += 1;
        buffer.copy_from_slice(&self.bytes[at..at + buffer.len()]);
        Ok(())
    }

    fn write_at(&mut self, _at: usize, bytes: &[u8]) -> Result<(), DeviceFault>
        requires { _at + length bytes.now ≤ byte_count self.old }
        ensures same { liar_bytes self.new ≡ liar_bytes self.old }
        ensures only_at_top { IsErr result
            → (fault_count self.old ≡ 2 ^ 64 - 1) ⊎ ((calls_of self.old).writes ≡ 2 ^ 64 - 1) }
        ensures device { EndsCall byte_count fault_count calls_of (λ disk. ⊥) 0 1 0 result self.old self.new }
    {
        if self.failures == u64::MAX || self.calls.writes == u64::MAX {
            return Err(fault(&mut self.failures));
        }
        self.calls.writes += 1;
        Ok(())
    }

    fn sync(&mut self) -> Result<(), DeviceFault>
        ensures same { liar_bytes self.new ≡ liar_bytes self.old }
        ensures only_at_top { IsErr result
            → (fault_count self.old ≡ 2 ^ 64 - 1) ⊎ ((calls_of self.old).syncs ≡ 2 ^ 64 - 1) }
        ensures device { EndsCall byte_count fault_count calls_of (λ disk. ⊥) 0 0 1 result self.old self.new }
    {
        if self.failures == u64::MAX || self.calls.syncs == u64::MAX {
            return Err(fault(&mut self.failures));
        }
        self.calls.syncs += 1;
        Ok(())
    }

    fn rely_on(&mut self, _at: usize, _bytes: &[u8]) {}
}
