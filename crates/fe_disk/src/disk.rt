// A disk as its users see it. An image is the list of all its bytes. `docs/model.md` has the model in plain
// words.
ghost use Rattle.std.specs.Prelude.{◌≡◌, ◌+◌, ◌≤◌, ℕ, List, length, OnOk};
ghost use Rattle.fe_disk.specs.Disk.{IsImage, bytes_at, after_write, IsTorn, Follows, AddsNone, LeavesJust};
ghost use Rattle.fe_disk.specs.Disk.{Elapses, EndsCall, MakesNoCall};
ghost use Rattle.fe_disk.specs.declared.calls.Calls.{Calls};

/// A device call failed. It carries no reason.
#[derive(Clone, Copy, PartialEq, Eq)]
pub struct DeviceFault;

/// A disk of a fixed size, in bytes, that may stop at any moment.
///
/// Each device call (`read_at`, `write_at`, `sync`) returns a fault exactly when the count of `failures`
/// rises in that call, or is at `u64::MAX`. The facts about bytes and stops hold only of an `honest` disk,
/// and a call never changes whether the disk is honest.
pub trait Disk {
    /// How many bytes the disk has. It never changes.
    ghost size: { Self → ℕ };

    /// How many device calls have failed. The count stays at `u64::MAX` once it is there.
    ghost failures: { Self → ℕ };

    /// How many reads, writes and syncs were made. A call that failed is counted or not, as the disk chooses.
    ghost calls: { Self → Calls };

    /// The disk does what this model says. Every fact about bytes and stops assumes it.
    ghost honest: { Self → Type 0 };

    /// What a read of the whole disk gives: all its bytes, in order.
    ghost seen: { Self → List ℕ };

    /// The images that a stop at this moment may leave.
    ghost may_leave: { Self → List ℕ → Type 0 };

    /// The time now, a number that never falls.
    ghost moment: { Self → ℕ };

    /// The images that a stop since the given moment may have left, within a call or between two calls.
    ghost left_since: { Self → ℕ → List ℕ → Type 0 };

    /// The size in bytes.
    fn size(&self) -> usize
        ensures { result ≡ size self.now };

    /// How many device calls have failed. At `u64::MAX` the count stays, and every call fails.
    fn failures(&self) -> u64
        ensures { result ≡ failures self.now };

    /// Reads the bytes from `at` on. After a fault the buffer may hold anything.
    fn read_at(&mut self, at: usize, buffer: &mut [u8]) -> Result<(), DeviceFault>
        requires { at + length buffer.old ≤ size self.old }

        ensures read { honest self.old → OnOk result
            (buffer.new ≡ bytes_at (seen self.old) at (length buffer.old)) }

        // A read changes nothing, whether it fails or not.
        ensures same { honest self.old → seen self.new ≡ seen self.old }
        ensures stop { honest self.old → AddsNone (may_leave self.old) (may_leave self.new) }
        ensures time { honest self.old → Elapses moment left_since may_leave self.old self.new }
        ensures device { EndsCall size failures calls honest 1 0 0 result self.old self.new };

    /// Writes the bytes from `at` on. Until a sync succeeds, a stop may leave any bytes in their range. A
    /// write that fails may have written: in its range a read may give anything, and a stop may leave
    /// anything.
    fn write_at(&mut self, at: usize, bytes: &[u8]) -> Result<(), DeviceFault>
        requires { at + length bytes.now ≤ size self.old }

        ensures written { honest self.old → OnOk result
            (seen self.new ≡ after_write (seen self.old) at bytes.now) }
        ensures torn { honest self.old → IsTorn at (length bytes.now) (seen self.old) (seen self.new) }
        ensures stop { honest self.old
            → Follows (IsTorn at (length bytes.now)) (may_leave self.old) (may_leave self.new) }
        ensures time { honest self.old → Elapses moment left_since may_leave self.old self.new }
        ensures device { EndsCall size failures calls honest 0 1 0 result self.old self.new };

    /// Makes all earlier writes durable. A sync that fails may have made none of them durable.
    fn sync(&mut self) -> Result<(), DeviceFault>
        // From a sync that succeeds until the next write, a stop leaves what a read gives.
        ensures durable { honest self.old → OnOk result (LeavesJust (seen self.new) (may_leave self.new)) }
        ensures same { honest self.old → seen self.new ≡ seen self.old }
        ensures stop { honest self.old → AddsNone (may_leave self.old) (may_leave self.new) }
        ensures time { honest self.old → Elapses moment left_since may_leave self.old self.new }
        ensures device { EndsCall size failures calls honest 0 0 1 result self.old self.new };

    /// Tells the disk that its user found these bytes from `at` on, and relies on them. It is no device call.
    /// A disk that other programs may write compares them before it writes more (`docs/store.md`, "The
    /// file").
    fn rely_on(&mut self, at: usize, bytes: &[u8])
        requires within { at + length bytes.now ≤ size self.old }
        requires right { honest self.old → bytes.now ≡ bytes_at (seen self.old) at (length bytes.now) }
        ensures same { honest self.old → seen self.new ≡ seen self.old }
        ensures stop { honest self.old → AddsNone (may_leave self.old) (may_leave self.new) }
        ensures time { honest self.old → Elapses moment left_since may_leave self.old self.new }
        ensures device { MakesNoCall size failures calls honest self.old self.new };

    /// A read of the whole disk gives as many bytes as the disk has, each below 2^8.
    ghost seen_is_image: { (disk : Self) → honest disk → IsImage (size disk) (seen disk) };

    /// The same is true of each image that a stop may have left.
    ghost left_is_image: { (disk : Self) (t : ℕ) (image : List ℕ) → honest disk
        → left_since disk t image → IsImage (size disk) image };

    /// A stop now may leave the disk as it reads.
    ghost seen_may_stay: { (disk : Self) → honest disk → may_leave disk (seen disk) };

    /// What a stop now may leave, a stop since an earlier moment may have left.
    ghost counts_now: { (disk : Self) (t : ℕ) (image : List ℕ) → honest disk
        → t ≤ moment disk → may_leave disk image → left_since disk t image };

    /// A stop since now may have left only what a stop now may leave.
    ghost only_now: { (disk : Self) (image : List ℕ) → honest disk
        → left_since disk (moment disk) image → may_leave disk image };
}
