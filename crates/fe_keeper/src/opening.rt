//! Opening and formatting a store for a keeper, which follows its state (`docs/model.md`, "The keeper").

ghost use Rattle.std.specs.Prelude.{◌≡◌, ◌⊎◌, IfOk, IfErr, IsErrAnd};
ghost use Rattle.fe_memory.specs.Memory.{out_of_memory};
ghost use Rattle.fe_disk.specs.Runs.{without_disk};
ghost use Rattle.fe_state.specs.State.{first_state};
ghost use Rattle.fe_journal.specs.Damage.{IsUnformatted};
ghost use Rattle.fe_journal.specs.Found.{AsksToOpen, refusal, told, BlankIsTold};
ghost use Rattle.fe_journal.specs.Journal.{Formats, OnlyReads};
ghost use Rattle.fe_journal.specs.Layout.{device_bytes};
ghost use Rattle.fe_journal.specs.declared.fault.StoreFault.TheVariants as store;
ghost use Rattle.fe_keeper.specs.Stands.{EachStandsFor};
ghost use Rattle.fe_keeper.specs.Keeper.{first_store};
ghost use Rattle.fe_keeper.specs.Opened.{disk_after, IsOpenFault, IsOpenedFrom, IsReady};
ghost use Rattle.fe_keeper.specs.Damage.{IsReason};
ghost use Rattle.fe_keeper.specs.within.Faults.{refused_by_journal};
ghost use Rattle.fe_keeper.specs.within.Upholds.{AreRooms};
ghost use Rattle.fe_keeper.specs.declared.fault.Fault.TheVariants.{Device, NoMemory, Unformatted};

use crate::Fault;
use crate::assembling::{Rooms, keeper_over};
use crate::keeper::Keeper;
use crate::recovering::recovered;
use fe_disk::Disk;
use fe_journal::{Blank, DEVICE_BYTES, Found, Journal, StoreFault, Unopened};
use fe_memory::OutOfMemory;
use fe_state::State;
use std::alloc::Global;

impl<D: Disk> Keeper<D> {
    /// Opens a store: a sync, and then only reads. The keeper has the state that the disk stands for. It
    /// takes about three megabytes, and the memory of the state and of a batch (`Rooms`).
    ///
    /// The fault of a damaged store is the first thing wrong in the slot that counts: its generation, its
    /// image's length, the lengths of its groups, its image, its generation against the image's place, and
    /// then its records (`docs/formats.md`, "Device" and "Journal area").
    pub fn open(alloc: Global, disk: D) -> Result<Keeper<D>, (Fault, D)>
        // What reads of the disk give stands for the keeper's state, and so does each image that a stop may
        // leave.
        ensures opened { D.honest disk → IfOk result (IsOpenedFrom D.Disk (D.seen disk)) }
        // A reported fault is the store's. A valid store is refused only if the device fails or memory runs
        // out. Memory runs out only if the header of the slot that counts is right and, once all is read, so
        // are the groups' lengths and the first four image fields.
        ensures refused { D.honest disk → IfErr result
            (λ e. IsReason (D.seen disk) (D.calls disk) (D.calls e.1) e.0) }
        // An unformatted store is reported as such unless the device fails, however little memory there is.
        ensures unformatted { D.honest disk → IsUnformatted (D.seen disk)
            → IsErrAnd result (λ e. (e.0 ≡ Unformatted) ⊎ (e.0 ≡ Device)) }
        // No stop leaves what could not be left before, and what is read stays the same.
        ensures reads { D.honest disk → OnlyReads D.Disk disk (disk_after result) }

        // These hold of any disk.
        ensures ready { IfOk result IsReady }
        ensures faults { IfErr result (λ e. IsOpenFault e.0) }
        ensures device { AsksToOpen D.Disk Device (without_disk result) disk (disk_after result) }
        ensures sized { IfOk result (λ keeper. D.size disk ≡ device_bytes) }
    {
        match Keeper::open_or_blank(alloc, disk) {
            Ok(keeper) => Ok(keeper),
            Err(unopened) => Err(unopened.into_parts(Fault::Unformatted)),
        }
    }

    /// Opens a store as `open` does. An unformatted disk is given as a blank one, which may be formatted.
    pub fn open_or_blank(alloc: Global, disk: D) -> Result<Keeper<D>, Unopened<Fault, D>>
        ensures opened { D.honest disk → IfOk result (IsOpenedFrom D.Disk (D.seen disk)) }
        ensures refused { D.honest disk → IfErr (told Unformatted result)
            (λ e. IsReason (D.seen disk) (D.calls disk) (D.calls e.1) e.0) }
        ensures unformatted { D.honest disk → IsUnformatted (D.seen disk)
            → IsErrAnd (told Unformatted result) (λ e. (e.0 ≡ Unformatted) ⊎ (e.0 ≡ Device)) }
        ensures reads { D.honest disk → OnlyReads D.Disk disk (disk_after (told Unformatted result)) }

        // These hold of any disk.
        ensures ready { IfOk result IsReady }
        ensures faults { IfErr (told Unformatted result) (λ e. IsOpenFault e.0) }
        ensures device { AsksToOpen D.Disk Device (without_disk (told Unformatted result)) disk
            (disk_after (told Unformatted result)) }
        ensures sized { IfOk result (λ keeper. D.size disk ≡ device_bytes) }
        // An unformatted disk comes as a blank one.
        ensures blank { IfErr result (BlankIsTold Unformatted) }
    {
        let Found {
            journal,
            image,
            mut groups,
        } = match Journal::find(alloc, disk) {
            Err(unopened) => return Err(of_journal(unopened)),
            Ok(found) => found,
        };
        let (format, generation, slot) = (
            journal.store_format(),
            journal.generation(),
            journal.slot(),
        );
        match recovered(alloc, format, generation, slot, &image, &mut groups) {
            Err(fault) => Err(Unopened::Refused(fault, journal.into_disk())),
            Ok(state) => match Rooms::new(alloc) {
                Err(error) => Err(Unopened::Refused(Fault::NoMemory(error), journal.into_disk())),
                Ok(rooms) => Ok(keeper_over(alloc, rooms, journal, state)),
            },
        }
    }

    /// Makes a new store of format 2 on the device, which an opening found unformatted. `Unformatted` (the
    /// device doesn't have the size of a store) and `NoMemory` leave the device alone. If formatting stops,
    /// or a device call fails, nothing is promised about the device, and it has to be opened and formatted
    /// again.
    pub fn format(alloc: Global, blank: Blank<D>) -> Result<Keeper<D>, (Fault, D)>
        ensures formatted { D.honest blank
            → IfOk result (λ keeper. EachStandsFor D.Disk keeper.store.disk first_state) }
        ensures state { IfOk result (λ keeper. keeper.state ≡ first_state) }
        ensures store { IfOk result (λ keeper. keeper.store ≡ first_store keeper.store.disk) }
        ensures sized { IfOk result (λ keeper. D.size blank ≡ device_bytes) }
        ensures ends { Formats D.Disk Unformatted Device (NoMemory out_of_memory) (without_disk result) blank
            (disk_after result) }
    {
        if blank.size() != DEVICE_BYTES {
            return Err((Fault::Unformatted, blank.into_disk()));
        }
        let (state, rooms) = match beginning(alloc) {
            Err(error) => return Err((Fault::NoMemory(error), blank.into_disk())),
            Ok(parts) => parts,
        };
        match Journal::format(alloc, blank) {
            Err((fault, disk)) => Err((Fault::from(fault), disk)),
            Ok(journal) => Ok(keeper_over(alloc, rooms, journal, state)),
        }
    }
}

/// The first state, and the memory for its keeper. All memory is taken before a device is written.
fn beginning(alloc: Global) -> Result<(State, Rooms), OutOfMemory>
    ensures state { IfOk result (λ parts. parts.0 ≡ first_state) }
    ensures rooms { IfOk result (λ parts. AreRooms parts.1) }
{
    let state = State::new(alloc)?;
    let rooms = Rooms::new(alloc)?;
    Ok((state, rooms))
}

/// Why a store was not opened, as a keeper says it.
fn of_journal<D: Disk>(unopened: Unopened<StoreFault, D>) -> Unopened<Fault, D>
    ensures refusal { refusal Unformatted result ≡ refused_by_journal (refusal store.Unformatted unopened) }
    ensures blank { BlankIsTold store.Unformatted unopened → BlankIsTold Unformatted result }
{
    match unopened {
        Unopened::Blank(blank) => Unopened::Blank(blank),
        Unopened::Refused(fault, disk) => Unopened::Refused(Fault::from(fault), disk),
    }
}
