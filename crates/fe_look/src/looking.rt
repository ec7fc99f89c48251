//! Opening a store, and writing the text of its state, for `femem look` (`docs/operating.md`, "What a server
//! says").

ghost use Rattle.std.specs.Prelude.{◌≡◌, ◌↔◌, ◌≢◌, ℕ, take, OnOk, IsErrOf};
ghost use Rattle.std.specs.Io.KnownBytes.{Appends, Keeps};
ghost use Rattle.fe_memory.specs.Memory.{out_of_memory};
ghost use Rattle.fe_disk.specs.Disk.{Rises};
ghost use Rattle.fe_journal.specs.Layout.{device_bytes};
ghost use Rattle.fe_journal.specs.Journal.{OnlyReads};
ghost use Rattle.fe_keeper.specs.Damage.{MayLackMemory};
ghost use Rattle.fe_keeper.specs.Stands.{StandsFor};
ghost use Rattle.fe_state.specs.State.{ServerState};
ghost use Rattle.fe_store.specs.Opening.{FoundThere, IsReason, TellsFile};
ghost use Rattle.fe_store.specs.declared.fault.OpenFault.{OpenFault};
ghost use Rattle.fe_store.specs.declared.fault.OpenFault.TheVariants as store;
ghost use Rattle.fe_text.specs.declared.fault.StreamFault.{StreamFault};
ghost use Rattle.fe_look.specs.Reading.{HasRead, KeepsDisk, SyncsJust};
ghost use Rattle.fe_look.specs.Look.{Shows, ShowsSome, ShowsFront, state_text};
ghost use Rattle.fe_look.specs.declared.fault.LookFault.TheVariants as fault;

use crate::fault::LookFault;
use crate::reading::copy_of;
use crate::state_text::state_text;
use fe_disk::{Disk, FileDisk, StoreFile};
use fe_state::State;
use fe_store::{OpenFault, disk_to_read, open_existing};
use fe_text::{Sink, StreamFault};
use std::alloc::Global;
use std::fs::File;
use std::rt::Files;

/// Writes the text of a state.
fn show<W: Sink>(alloc: Global, state: &State, writer: &mut W) -> Result<(), LookFault>
    ensures ok { OnOk result (Appends (W.contents writer.old) (W.contents writer.new)
        (state_text state.now)) }
    ensures front { (count : ℕ)
        × Appends (W.contents writer.old) (W.contents writer.new) (take count (state_text state.now)) }
    ensures opened { (why : OpenFault) → IsErrOf result (fault.Store why) → ⊥ }
    ensures input { IsErrOf result (fault.Stream StreamFault.Input)
        → W.has_failed writer.new StreamFault.Input }
{
    let text = match state_text(alloc, state) {
        Ok(text) => text,
        Err(error) => return Err(LookFault::Stream(StreamFault::Memory(error))),
    };
    match writer.write_text(text.as_bytes()) {
        Ok(()) => Ok(()),
        Err(fault) => Err(LookFault::Stream(fault)),
    }
}

/// Opens the store on a disk, and writes its text. The disk is only synced and read, and is returned.
pub fn look_at<D: Disk, W: Sink>(
    alloc: Global,
    disk: D,
    writer: &mut W,
) -> (Result<(), LookFault>, D)
    // What is written is the text of the state that the disk stands for.
    ensures shows { D.honest disk
        → OnOk result.0 (Shows (D.seen disk) (W.contents writer.old) (W.contents writer.new)) }
    // A reported fault is true of the store, and a valid store is refused only if the device fails or memory
    // is short.
    ensures refused { D.honest disk → (why : OpenFault) → IsErrOf result.0 (fault.Store why)
        → IsReason (D.seen disk) why }
    // Memory is short for the store only as `MayLackMemory` says. The writer fails, or memory is short for
    // the text, only once the store is read.
    ensures memory { D.honest disk → IsErrOf result.0 (fault.Store (store.Memory out_of_memory))
        → MayLackMemory (D.seen disk) (D.calls disk) (D.calls result.1) }
    ensures opened { D.honest disk → (why : StreamFault) → IsErrOf result.0 (fault.Stream why)
        → (s : ServerState) × StandsFor (D.seen disk) s }
    // A crash leaves nothing that it couldn't leave before, and reads give the same bytes.
    ensures reads { D.honest disk → OnlyReads D.Disk disk result.1 }

    // On any disk: what is written is the text of a state, or after a fault the start of one. Without a
    // store, nothing is.
    ensures written { OnOk result.0 (ShowsSome (W.contents writer.old) (W.contents writer.new)) }
    ensures front { ShowsFront (W.contents writer.old) (W.contents writer.new) }
    ensures silent { (why : OpenFault) → IsErrOf result.0 (fault.Store why)
        → Keeps (W.contents writer.old) (W.contents writer.new) }
    ensures sized { (found : ℕ) → IsErrOf result.0 (fault.Store (store.Size found)) → ⊥ }
    // `Input` only if the writer failed.
    ensures input { IsErrOf result.0 (fault.Stream StreamFault.Input)
        → W.has_failed writer.new StreamFault.Input }
    ensures device { IsErrOf result.0 (fault.Store store.Device)
        ↔ Rises (D.failures disk) (D.failures result.1) }
    ensures honesty { D.honest result.1 ↔ D.honest disk }
    ensures size { D.size result.1 ≡ D.size disk }
{
    match open_existing(alloc, disk) {
        Ok(keeper) => {
            let shown = show(alloc, keeper.state(), writer);
            (shown, keeper.into_disk())
        }
        Err((fault, disk)) => (Err(LookFault::Store(fault)), disk),
    }
}

/// Copies the store on a disk into memory, and writes its text. The disk is only synced and read, so a server
/// may use it at the same time (`docs/store.md`, "A copy while the store is written").
///
/// `Device` if the disk fails, or if none of 100 readings was whole and a checkpoint began during one at
/// least. `Memory` if memory runs out for the copy or the state. `Unformatted` or `Damaged` if the disk holds
/// no state. `Stream` if the writer fails or memory is short for the text.
pub fn look_copy<D: Disk, W: Sink>(
    alloc: Global,
    disk: &mut D,
    writer: &mut W,
) -> Result<(), LookFault>
    // Over a disk that nobody else writes: what is written is the text of the state that the disk stands for.
    ensures shows { D.honest disk.old
        → OnOk result (Shows (D.seen disk.old) (W.contents writer.old) (W.contents writer.new)) }
    // A reported fault is true of the store, and a valid store is refused only with `Device` or `Memory`.
    ensures refused { D.honest disk.old → (why : OpenFault) → IsErrOf result (fault.Store why)
        → IsReason (D.seen disk.old) why }
    // Memory is short for the text, or the writer fails, only once the store is read.
    ensures opened { D.honest disk.old → (why : StreamFault) → IsErrOf result (fault.Stream why)
        → (s : ServerState) × StandsFor (D.seen disk.old) s }

    // No write is counted. A crash leaves nothing that it couldn't leave before, and reads give the same
    // bytes.
    ensures kept { KeepsDisk D.Disk disk.old disk.new }
    // On any disk: each fault of the disk is reported.
    ensures failed { Rises (D.failures disk.old) (D.failures disk.new)
        → IsErrOf result (fault.Store store.Device) }
    // Before it shows a state, it read the slot's header again behind the slot, and synced the disk before
    // the readings and after them.
    ensures again { OnOk result (HasRead 9 (D.calls disk.old) (D.calls disk.new)) }
    ensures synced { OnOk result (SyncsJust 2 (D.calls disk.old) (D.calls disk.new)) }
    // What is written is the text of a state, or after a fault the start of one. Without a store, nothing is.
    ensures written { OnOk result (ShowsSome (W.contents writer.old) (W.contents writer.new)) }
    ensures front { ShowsFront (W.contents writer.old) (W.contents writer.new) }
    ensures silent { (why : OpenFault) → IsErrOf result (fault.Store why)
        → Keeps (W.contents writer.old) (W.contents writer.new) }
    ensures sized { (found : ℕ) → IsErrOf result (fault.Store (store.Size found)) → ⊥ }
    // `Input` only if the writer failed.
    ensures input { IsErrOf result (fault.Stream StreamFault.Input)
        → W.has_failed writer.new StreamFault.Input }
{
    let copy = copy_of(alloc, disk)?;
    look_at(alloc, copy, writer).0
}

/// Copies the store in a file into memory, and writes its text: its place, and a line for each array and each
/// session. The file is only synced and read, so a server may use it at the same time.
///
/// `Device` if there is no such file, it can't be read, or none of 100 readings was whole and a checkpoint
/// began during one at least. `Size` if the file doesn't have the size of a store. `Unformatted` or `Damaged`
/// if it holds no state. `Memory` and `Stream` as `look_copy` says.
pub fn look<F: StoreFile + Drop, R: Files<File = File>, W: Sink>(
    rt: &R,
    alloc: Global,
    path: &str,
    writer: &mut W,
) -> Result<(), LookFault>
    // What is written is the text of the state that the file at the path stood for when it was found. A fault
    // that speaks of the file's bytes is true of those that it had then.
    ensures shows { OnOk result (FoundThere ⟦<FileDisk<F> as Disk>⟧ (F.is_at path.now)
        (λ image. Shows image (W.contents writer.old) (W.contents writer.new))) }
    ensures tells { (why : OpenFault) → IsErrOf result (fault.Store why)
        → TellsFile ⟦<FileDisk<F> as Disk>⟧ (F.is_at path.now) why }

    // What is written is the text of a state, or after a fault the start of one. Without a store, nothing is.
    ensures written { OnOk result (ShowsSome (W.contents writer.old) (W.contents writer.new)) }
    ensures front { ShowsFront (W.contents writer.old) (W.contents writer.new) }
    ensures silent { (why : OpenFault) → IsErrOf result (fault.Store why)
        → Keeps (W.contents writer.old) (W.contents writer.new) }
    ensures wrong_size { (found : ℕ) → IsErrOf result (fault.Store (store.Size found))
        → found ≢ device_bytes }
    // `Input` only if the writer failed.
    ensures input { IsErrOf result (fault.Stream StreamFault.Input)
        → W.has_failed writer.new StreamFault.Input }
{
    let mut disk = disk_to_read::<F, R>(rt, path)?;
    look_copy(alloc, &mut disk, writer)
}
