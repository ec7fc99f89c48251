//! What a disk that writes a file knows of the bytes in it. A group is what one append writes to the store.
//! It ends in a closed gate, the byte that the next append opens (`docs/store.md`).
ghost use Rattle.std.specs.Prelude.{◌≡◌, ◌↔◌, ◌+◌, ◌^◌, ◌<◌, ◌≤◌, length, IsTrue, IsFalse};
ghost use Rattle.fe_disk.specs.within.Samples.{Holds, StaysRight, IsOf};

use crate::StoreFile;
use crate::sample::{LONG, Sample};

/// Samples of a file. It must still have them before the next long write, such as that of a group. One that
/// another write overwrote is empty.
#[derive(Clone, Copy)]
pub(crate) struct Samples {
    /// The last bytes of the last long write.
    written: Sample,
    /// What `written` was at the last sync right after a long write: the end of the last group, with the
    /// closed gate after it. At first it is what the user of the disk relied on last.
    kept: Sample,
    /// What the user relied on before that. It is compared once.
    opened: Sample,
    /// Whether the last write was short, as of a gate.
    pub(crate) is_short: bool,
}

impl Samples {
    /// No samples: nothing is known of the file.
    pub(crate) const NONE: Samples = Samples {
        written: Sample::NONE,
        kept: Sample::NONE,
        opened: Sample::NONE,
        is_short: false,
    };

    /// Takes a sample of bytes that the file has. The one before it is compared only once.
    pub(crate) fn rely_on(&mut self, at: usize, bytes: &[u8])
        requires { at + length bytes.now < 2 ^ 64 }
        ensures kept { IsOf at bytes.now self.new.kept }
        ensures written { IsOf at bytes.now self.new.written }
        ensures opened { self.new.opened ≡ self.old.kept }
    {
        self.opened = self.kept;
        self.kept = Sample::of(at, bytes);
        self.written = self.kept;
    }

    /// After a write: takes a sample of it if it was long, and forgets a sample if the write overwrote one of
    /// its bytes. A write that failed leaves no sample.
    pub(crate) fn after_write(&mut self, at: usize, bytes: &[u8], is_written: bool)
        requires { at + length bytes.now < 2 ^ 64 }
        ensures written { IsTrue is_written → StaysRight at bytes.now self.old.written self.new.written }
        ensures kept { IsTrue is_written → StaysRight at bytes.now self.old.kept self.new.kept }
        ensures opened { IsTrue is_written → StaysRight at bytes.now self.old.opened self.new.opened }
        ensures long { IsTrue is_written → 16 ≤ length bytes.now → IsOf at bytes.now self.new.written }
        ensures short { IsTrue is_written → (IsTrue self.new.is_short ↔ (length bytes.now < 16)) }
    {
        if !is_written {
            *self = Samples::NONE;
            return;
        }
        self.opened = self.opened.beside(at, bytes);
        self.kept = self.kept.beside(at, bytes);
        self.is_short = bytes.len() < LONG;
        self.written = self.written.after(at, bytes);
    }

    /// After a sync that succeeded: what was written right before it has to stay.
    pub(crate) fn keep(&mut self)
        ensures kept { IsFalse self.old.is_short → self.new.kept ≡ self.old.written }
        ensures same { IsTrue self.old.is_short → self.new.kept ≡ self.old.kept }
        ensures written { self.new.written ≡ self.old.written }
        ensures opened { self.new.opened ≡ self.old.opened }
    {
        if !self.is_short {
            self.kept = self.written;
        }
    }

    /// Whether the file still has the samples. One that can't be read counts as changed.
    pub(crate) fn confirm<F: StoreFile>(&mut self, file: &F) -> bool
        ensures kept { F.gives file.now → IsTrue result → Holds (F.contents file.now) self.old.kept }
        ensures opened { F.gives file.now → IsTrue result → Holds (F.contents file.now) self.old.opened }
        ensures same { (self.new.kept ≡ self.old.kept) × (self.new.written ≡ self.old.written) }
        ensures refused { IsFalse result → self.new ≡ self.old }
    {
        let (Ok(true), Ok(true)) = (self.opened.is_in(file), self.kept.is_in(file)) else {
            return false;
        };
        self.opened = Sample::NONE;
        true
    }
}
