//! How the values of a table are copied. Tables are maps such as those of the arrays and sessions in the
//! server state (`docs/model.md`, "The state of the server").

ghost use Rattle.std.specs.Prelude.{◌≡◌, IfOk};

use fe_memory::OutOfMemory;
use std::alloc::Global;

/// A value that can be copied into memory of its own.
pub trait Copied: Sized {
    /// A copy of the value. Fails only if memory runs out.
    fn copied(&self, alloc: Global) -> Result<Self, OutOfMemory>
        ensures { IfOk result (λ copy. copy ≡ self.now) };
}
