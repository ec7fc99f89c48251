//! Taking a batch, entries that are to be stored at once, into the replica of the state (`docs/model.md`,
//! "The replica"). An entry is a step of the history; its place is the number of entries before it.

ghost use Rattle.std.specs.Prelude.{◌≡◌, ℕ, ◌≤◌, length, Err, OnOk, OnErr};
ghost use Rattle.fe_memory.specs.Memory.{out_of_memory};
ghost use Rattle.fe_state.specs.State.{after_all};
ghost use Rattle.fe_state.specs.UndoLog.{empty_log, rewound, IsLogOf};
ghost use Rattle.fe_replica.specs.Replaying.{Continues, IsMismatch, MakesSomeArray};
ghost use Rattle.fe_replica.specs.declared.taking.Refused.TheVariants.{Mismatch, NoMemory};

use fe_memory::OutOfMemory;
use fe_state::{Entry, State, UndoLog};

/// Why a batch was not taken.
#[derive(Clone, Copy, PartialEq, Eq)]
pub enum Refused {
    /// The entries do not continue the history, first at this place.
    Mismatch { place: u64 },
    /// There was no memory for the words of a new array.
    NoMemory(OutOfMemory),
}

/// Carries out entries that continue the history of the state, the first of them at the place `first`. Then
/// the log, which has to be empty before and to have room for them, can restore the state before. If the
/// entries are refused, state and log stay as they were.
pub fn take(
    state: &mut State,
    log: &mut UndoLog,
    first: u64,
    entries: &[Entry],
) -> Result<(), Refused>
    requires empty { log.old ≡ empty_log log.old.room }
    requires room { length entries.now ≤ log.old.room }
    ensures taken { OnOk result (state.new ≡ after_all state.old entries.now) }
    ensures continues { OnOk result (Continues state.old first entries.now) }
    // The log restores the state before.
    ensures log { OnOk result (IsLogOf log.new state.new) }
    ensures beginning { OnOk result (rewound log.new state.new ≡ state.old) }
    ensures room { log.new.room ≡ log.old.room }
    ensures err { OnErr result ((state.new ≡ state.old) × (log.new ≡ log.old)) }
    ensures mismatch { (place : ℕ) → result ≡ Err (Mismatch place)
        → IsMismatch state.old first entries.now place }
    ensures memory { result ≡ Err (NoMemory out_of_memory) → MakesSomeArray entries.now }
{
    if first != state.place() || entries.is_empty() {
        return Err(Refused::Mismatch {
            place: state.place(),
        });
    }
    for entry in entries {
        let Ok(effect) = state.examine(entry) else {
            let place = state.place();
            state.rewind(log);
            return Err(Refused::Mismatch { place });
        };
        if let Err(error) = state.apply(*entry, effect, log) {
            state.rewind(log);
            return Err(Refused::NoMemory(error));
        }
    }
    Ok(())
}
