//! One read or write of any stream, repeated if a signal interrupts it (`docs/proved.md`, "Desk").
#![tactic(auto)]

ghost use Rattle.std.specs.Prelude.{◌<◌, ◌≤◌, length, IfOk};
ghost use Rattle.std.specs.Io.KnownBytes.{WriteAppends};

mod incoming;

pub use incoming::Incoming;
use std::io::{ErrorKind, Write};

/// How often a call that a signal interrupts is tried at most.
const TRIES: u64 = 1 << 40;

/// A read or a write failed, for a reason other than a signal, or a signal interrupted 2^40 tries; or a
/// writer took no byte. Only the calls of this crate make it.
#[derive(Clone, Copy, PartialEq, Eq)]
pub struct StreamFailed(());

/// Writes at least one byte from the front, and returns how many; returns 0 only if there are none.
pub fn write_some<W: Write>(writer: &mut W, bytes: &[u8]) -> Result<usize, StreamFailed>
    ensures fits { IfOk result (λ count. count ≤ length bytes.now) }
    ensures some { IfOk result (λ count. 0 < length bytes.now → 0 < count) }
    ensures wrote { WriteAppends (W.contents writer.old) (W.contents writer.new) result bytes.now }
{
    for _ in 0..TRIES {
        match writer.write(bytes) {
            Ok(count) => {
                if count == 0 && !bytes.is_empty() {
                    return Err(StreamFailed(()));
                }
                return Ok(count);
            }
            Err(error) => {
                if error.kind() != ErrorKind::Interrupted {
                    return Err(StreamFailed(()));
                }
            }
        }
    }
    Err(StreamFailed(()))
}
