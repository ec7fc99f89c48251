//! What the disk of a store asks of its file (`docs/store.md`, "The file").

ghost use Rattle.std.specs.Prelude.{◌≡◌, ◌≢◌, ℕ, List, length, IfOk, IfErr, IsErrOf, OnOk};
ghost use Rattle.fe_disk.specs.Disk.{bytes_at};
ghost use Rattle.fe_disk.specs.declared.file_fault.FileFault.TheVariants.{WrongSize, Device};

use crate::{Disk, FileFault};
use std::fs::File;
use std::io;
use std::rt::Files;

/// A file of a fixed size, as a disk that other programs may write too. What is proved of a store holds for
/// each type of file whose members say what it gives: as a disk, if it is `honest`, and to one who reads back
/// what others wrote, if it `gives` that.
pub trait StoreFile: Disk {
    /// What is read back is what the file contains. Every fact about that assumes it.
    ghost gives: { Self → Type 0 };

    /// All bytes of the file now, in order, whoever wrote them.
    ghost contents: { Self → List ℕ };

    /// The file was found at this path, and is as it was found. Only `at` and `read_only` make it so.
    ghost is_at: { List ℕ → Self → Type 0 };

    /// Makes a file of this many zero bytes, which only its owner may read and write, locks it, and syncs it
    /// and its folder. If a file has the path already, it stays as it is and the call fails. If a later step
    /// fails, the new file stays, maybe with another size. The only fault is `Device`.
    fn create<R: Files<File = File>>(rt: &R, path: &str, size: usize) -> Result<Self, FileFault>
        ensures size { IfOk result (λ file. Self.size file ≡ size) }
        ensures failures { IfOk result (λ file. Self.failures file ≡ 0) }
        ensures refused { IfErr result (λ fault. fault ≡ Device) };

    /// The file at this path, which must have this many bytes. It locks the file.
    fn at<R: Files<File = File>>(rt: &R, path: &str, size: usize) -> Result<Self, FileFault>
        ensures found { IfOk result (is_at path.now) }
        ensures size { IfOk result (λ file. Self.size file ≡ size) }
        ensures failures { IfOk result (λ file. Self.failures file ≡ 0) }
        ensures wrong { (found : ℕ) → IsErrOf result (WrongSize found) → found ≢ size };

    /// The file at this path, which must have this many bytes, for reading only. The file need not be
    /// writable, and every write of a byte or more fails. It takes no lock: others may read and write the
    /// file meanwhile.
    fn read_only<R: Files<File = File>>(rt: &R, path: &str, size: usize) -> Result<Self, FileFault>
        ensures found { IfOk result (is_at path.now) }
        ensures size { IfOk result (λ file. Self.size file ≡ size) }
        ensures failures { IfOk result (λ file. Self.failures file ≡ 0) }
        ensures wrong { (found : ℕ) → IsErrOf result (WrongSize found) → found ≢ size };

    /// Reads bytes from `at` on, whoever wrote them. It is no device call. After an error the buffer may hold
    /// anything.
    fn read_back(&self, at: usize, buffer: &mut [u8]) -> io::Result<()>
        ensures read { gives self.now → OnOk result
            (buffer.new ≡ bytes_at (contents self.now) at (length buffer.old)) };

    /// Whether the file has its size and the path at which it was opened (without `/proc`, any name). Always
    /// so if it is for reading only.
    fn is_there(&self) -> bool;
}
