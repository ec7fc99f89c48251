//! What text is read from and written to (`docs/schedules.md`, "Lines").

ghost use Rattle.std.specs.Prelude.{ℕ, ◌≡◌, ◌+◌, ◌-◌, ◌^◌, ◌<◌, List, Option, None, [], length, string_bytes};
ghost use Rattle.std.specs.Prelude.{take, IfOk, IfErr, OnOk, OnErr};
ghost use Rattle.std.specs.Io.KnownBytes.{Appends, Keeps};
ghost use Rattle.fe_text.specs.Line.{ReadsSome};
ghost use Rattle.fe_text.specs.declared.fault.StreamFault.{StreamFault as Fault};

use crate::fault::StreamFault;

/// What text is read from.
pub trait Source {
    /// The bytes that reads will give from here on, if they are known.
    ghost remaining: { Self → Option (List ℕ) };

    /// Whether it was read at least this many times.
    ghost was_read: { Self → ℕ → Type 0 };

    /// Whether a signal interrupted a read.
    ghost was_interrupted: { Self → Type 0 };

    /// Whether a read failed with this fault.
    ghost has_failed: { Self → Fault → Type 0 };

    /// Reads once, and says how many bytes that gave: 0 at the end, or if `piece` has none. `None` if a
    /// signal interrupted the read. If the read fails, nothing was taken.
    fn read_piece(&mut self, piece: &mut [u8]) -> Result<Option<usize>, StreamFault>
        ensures reads { IfOk result (ReadsSome (remaining self.old) (remaining self.new) piece.new) }
        ensures len { length piece.new ≡ length piece.old }
        ensures stays { IfErr result (λ _. Keeps (remaining self.old) (remaining self.new)) }
        ensures counts { (count : ℕ) → was_read self.old count → was_read self.new (count + 1) }
        // It counts as one read. A count may stay at 2^64 - 1.
        ensures once { (count : ℕ) → count < 2 ^ 64 - 1 → was_read self.new (count + 1)
            → was_read self.old count }
        ensures interrupted { IfOk result (λ given. given ≡ None → was_interrupted self.new) }
        ensures fails { IfErr result (has_failed self.new) };

    /// It was read no times at least.
    ghost begins: { (s : Self) → was_read s 0 };
}

/// What text is written to.
pub trait Sink {
    /// The bytes that it holds, if they are known.
    ghost contents: { Self → Option (List ℕ) };

    /// Whether a write or a flush failed with this fault; or, for `Input`, whether a write took no byte or
    /// 2^40 writes were made.
    ghost has_failed: { Self → Fault → Type 0 };

    /// Whether all that was written is handed on (flushed).
    ghost is_handed_on: { Self → Type 0 };

    /// Writes the text. If the writer fails, a prefix of it is written.
    fn write_text(&mut self, text: &[u8]) -> Result<(), StreamFault>
        ensures ok { OnOk result (Appends (contents self.old) (contents self.new) text.now) }
        ensures front { (count : ℕ) × Appends (contents self.old) (contents self.new) (take count text.now)
            × (count ≡ 0 → is_handed_on self.old → is_handed_on self.new) }
        ensures idle { length text.now ≡ 0 → is_handed_on self.old → is_handed_on self.new }
        ensures fails { IfErr result (has_failed self.new) };

    /// Writes the text, and empties it in any case. If the writer fails, a prefix of it is written.
    fn write_whole(&mut self, text: &mut String) -> Result<(), StreamFault>
        ensures ok { OnOk result (Appends (contents self.old) (contents self.new) (string_bytes text.old)) }
        ensures front { (count : ℕ)
            × Appends (contents self.old) (contents self.new) (take count (string_bytes text.old)) }
        ensures cleared { string_bytes text.new ≡ [] }
        ensures fails { IfErr result (has_failed self.new) }
        ensures stays { (fault : Fault) → has_failed self.old fault → has_failed self.new fault };

    /// Hands on what is written.
    fn hand_on(&mut self) -> Result<(), StreamFault>
        ensures keeps { Keeps (contents self.old) (contents self.new) }
        ensures handed { OnOk result (is_handed_on self.new) }
        ensures idle { OnErr result (is_handed_on self.old → is_handed_on self.new) }
        ensures fails { IfErr result (has_failed self.new) };
}
