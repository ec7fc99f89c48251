//! The buffer of a journal, in which groups are put together before they are written (`docs/store.md`, "What
//! it costs").

ghost use Rattle.std.specs.Prelude.{◌≡◌, IfOk, vec_len};

use fe_memory::OutOfMemory;
use std::alloc::Global;

/// A buffer of zeros with this length. The contract gives its length alone, since a clause about its zeros
/// would be as long as the buffer.
pub fn buffer_of(alloc: Global, length: usize) -> Result<Vec<u8>, OutOfMemory>
    ensures { IfOk result (λ buffer. vec_len buffer ≡ length) }
{
    Ok(vec![in alloc; 0; length]?)
}
