//! How far a checkpoint is, which moves the store to the other of its two slots (`docs/store.md`, "Two slots"
//! and "Making the other slot ready").

ghost use Rattle.std.specs.Prelude.{◌≡◌, ◌+◌, ◌≤◌, true, not, nat_le, length, IfOk, IfErr, OnOk, OnErr};
ghost use Rattle.std.specs.Prelude.{vec_len};
ghost use Rattle.fe_memory.specs.Memory.{out_of_memory};
ghost use Rattle.fe_disk.specs.Disk.{MakesAtMost};
ghost use Rattle.fe_state.specs.State.{ServerState};
ghost use Rattle.fe_codec.specs.Image.{image_spelling};
ghost use Rattle.fe_format.specs.declared.format.Format.TheVariants.{Two};
ghost use Rattle.fe_journal.specs.Contents.{Contents};
ghost use Rattle.fe_keeper.specs.Keeper.{slice_size};
ghost use Rattle.fe_keeper.specs.within.Ends.{StoreEnds, CarriesDraft, IsFresh, IsImageOf, CanWrite};
ghost use Rattle.fe_keeper.specs.within.Upholds.{KeepsDraft, sliced, journal_sliced, progress_of};
ghost use Rattle.fe_keeper.specs.declared.fault.Fault.TheVariants.{NoMemory};

use crate::{Fault, Format};
use fe_codec::put_image;
use fe_disk::Disk;
use fe_journal::{Journal, JournalFault, SLICE_BYTES};
use fe_memory::OutOfMemory;
use fe_state::State;
use std::alloc::Global;

/// A checkpoint: an image of the state that is written, slice by slice, into the slot that does not count.
#[derive(Drop)]
pub(crate) struct Checkpoint {
    /// The image of the state at its beginning, in format 2.
    pub(crate) image: Vec<u8>,
    /// How many bytes of the image are written.
    pub(crate) written: usize,
    /// The place of that state: how many entries the history has before it.
    pub(crate) place: u64,
    /// The catch-up: the records of the entries since then, in format 2. It has the memory for those of the
    /// longest group.
    pub(crate) catch_up: Vec<u8>,
}

impl Checkpoint {
    /// A checkpoint of the state, with nothing written yet.
    pub(crate) fn new(alloc: Global, state: &State) -> Result<Checkpoint, Fault>
        ensures image { IfOk result (λ made. IsImageOf made state.now) }
        ensures fresh { IfOk result (λ made. IsFresh made state.now.place) }
        ensures size { IfOk result (λ made. vec_len made.image ≡ length (image_spelling Two state.now)) }
        ensures memory { IfErr result (λ fault. fault ≡ NoMemory out_of_memory) }
    {
        let mut image = Vec::new(alloc);
        put_image(Format::Two, state, &mut image)?;
        let catch_up = match Vec::with_capacity(alloc, Format::Two.longest_payload()) {
            Ok(room) => room,
            Err(error) => return Err(Fault::NoMemory(OutOfMemory::from(error))),
        };
        Ok(Checkpoint {
            image,
            written: 0,
            place: state.place(),
            catch_up,
        })
    }

    /// The end of the next slice in the image.
    pub(crate) fn slice_end(&self) -> usize
        requires { self.now.written ≤ vec_len self.now.image }
        ensures { result ≡ self.now.written + slice_size (progress_of self.now) }
    {
        let left = self.image.len() - self.written;
        self.written + left.min(SLICE_BYTES)
    }

    /// Writes the next slice into the slot begun, if one is left. Returns whether slices are left after it.
    pub(crate) fn write_slice<D: Disk>(
        &mut self,
        journal: &mut Journal<D>,
    ) -> Result<bool, JournalFault>
        requires can { CanWrite journal.old self.old }
        ensures carries { D.honest journal.old.disk → (c : Contents) (s : ServerState)
            → KeepsDraft D.Disk journal.old c self.old s
            → CarriesDraft D.Disk result journal.old journal.new c self.new s }
        ensures written { OnOk result ((self.new ≡ sliced self.old)
            × (journal.new ≡ journal_sliced journal.old journal.new.disk (sliced self.old))) }
        ensures more { IfOk result (λ more. more
            ≡ not (nat_le (vec_len self.old.image) (sliced self.old).written)) }
        ensures rests { vec_len self.old.image ≤ self.old.written
            → (self.new ≡ self.old) × (journal.new ≡ journal.old) }
        ensures err { OnErr result ((self.new ≡ self.old)
            × (journal.new ≡ record journal.old { disk = journal.new.disk; has_failed = true })) }
        ensures ends { StoreEnds D.Disk result journal.old journal.new }
        ensures calls { MakesAtMost 0 1 0 (D.calls journal.old.disk) (D.calls journal.new.disk) }
    {
        let end = self.slice_end();
        if end == self.written {
            return Ok(false);
        }
        journal.slot_write(&self.image[self.written..end])?;
        self.written = end;
        Ok(end < self.image.len())
    }
}
