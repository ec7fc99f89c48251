//! Puts a keeper, which owns the store, together from its parts (`docs/store.md`, "The life of a store"). A
//! batch is entries that are stored at once, as one group.

ghost use Rattle.std.specs.Prelude.{◌≡◌, IfOk};
ghost use Rattle.fe_journal.specs.Journal.{IsIdle};
ghost use Rattle.fe_keeper.specs.within.Upholds.{IsNumbered, AreRooms};
ghost use Rattle.fe_keeper.specs.Opened.{keeper_over, KeepsState};

use crate::Format;
use crate::keeper::Keeper;
use crate::keeper_store::KeeperStore;
use fe_disk::Disk;
use fe_journal::Journal;
use fe_memory::OutOfMemory;
use fe_state::{BATCH_ENTRIES, State, UndoLog};
use std::alloc::Global;

/// The memory for the payload of a batch's group, and for the log by which the replica, the keeper's copy of
/// the state, goes back.
#[derive(Drop)]
pub(crate) struct Rooms {
    group: Vec<u8>,
    log: UndoLog,
}

impl Rooms {
    pub(crate) fn new(alloc: Global) -> Result<Rooms, OutOfMemory>
        ensures { IfOk result AreRooms }
    {
        let group = Vec::with_capacity(alloc, BATCH_ENTRIES * Format::Two.record_bytes())?;
        let log = UndoLog::with_room(alloc, BATCH_ENTRIES as u32)?;
        Ok(Rooms { group, log })
    }
}

/// The keeper of a state over a journal that keeps it, with the memory for the batches to come.
// A keeper is some 9 KB. LLVM takes minutes over a function that moves one several times and also reaches
// into it, so what makes one or takes one apart is not inlined.
#[inline(never)]
pub(crate) fn keeper_over<D: Disk>(
    alloc: Global,
    rooms: Rooms,
    journal: Journal<D>,
    state: State,
) -> Keeper<D>
    requires rooms { AreRooms rooms }
    requires ready { IsIdle journal }
    requires numbered { IsNumbered state.place journal }
    requires keeps { D.honest journal.disk → KeepsState D.Disk journal state }
    ensures { result ≡ keeper_over journal state }
{
    let Rooms { group, log } = rooms;
    let place = state.place();
    let store = KeeperStore {
        journal,
        group,
        place,
        checkpoint: None,
    };
    Keeper {
        store,
        state,
        log,
        alloc,
    }
}
