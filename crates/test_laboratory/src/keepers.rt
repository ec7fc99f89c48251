//! Calls of a keeper.

use crate::act::{Act, Verb};
use crate::made::{Made, image_of};
use crate::shown::{fault_text, format_name};
use crate::trouble::Trouble;
use fe_disk::Disk;
use fe_keeper::{Fault, Keeper, Unopened};
use fe_state::{BATCH_ENTRIES, Batch, Entry, State};
use std::alloc::Global;

/// Opens a store, and makes the calls up to the first that fails.
pub fn made<D: Disk>(alloc: Global, disk: D, acts: &[Act]) -> (D, Result<Made, Trouble>) {
    match Keeper::open(alloc, disk) {
        Ok(keeper) => {
            let mut keeper = keeper;
            let made = make_all(alloc, &mut keeper, acts);
            (keeper.into_disk(), made)
        }
        Err((fault, disk)) => (disk, Ok(Made::refused(alloc, fault))),
    }
}

/// Makes the calls up to the first that fails.
pub fn make_all<D: Disk>(
    alloc: Global,
    keeper: &mut Keeper<D>,
    acts: &[Act],
) -> Result<Made, Trouble> {
    let mut made = Made::new(alloc);
    for act in acts {
        let outcome = make(alloc, keeper, act);
        if made.note(outcome)? {
            meet(alloc, keeper, act, &mut made)?;
            return Ok(made);
        }
    }
    made.before = image_of(alloc, keeper.state())?;
    Ok(made)
}

fn make<D: Disk>(alloc: Global, keeper: &mut Keeper<D>, act: &Act) -> Result<bool, Fault> {
    match act.verb {
        Verb::Append => append(alloc, keeper, act.entries.as_slice()),
        Verb::Begin => keeper.checkpoint_begin(),
        Verb::Step => keeper.checkpoint_step(),
        Verb::Finish => keeper.checkpoint_finish(),
        _ => Ok(false),
    }
}

// Whether a batch was returned unchanged.
fn is_same(back: &Batch, first: u64, entries: &[Entry]) -> bool {
    back.first == first && back.entries.as_slice() == entries
}

// Appends the entries at the keeper's place. Whether or not it takes the batch, it must return it unchanged.
fn append<D: Disk>(
    alloc: Global,
    keeper: &mut Keeper<D>,
    entries: &[Entry],
) -> Result<bool, Fault> {
    let first = keeper.state().place();
    let batch = batch_of(alloc, first, entries)?;
    match keeper.append(batch) {
        Ok(back) => {
            let is_back = is_same(&back, first, entries);
            drop(back);
            Ok(is_back)
        }
        Err((fault, back)) => {
            let is_back = is_same(&back, first, entries);
            drop(back);
            if is_back { Err(fault) } else { Ok(false) }
        }
    }
}

fn batch_of(alloc: Global, first: u64, entries: &[Entry]) -> Result<Batch, Fault> {
    let mut batch = Batch::new(alloc, first)?;
    for entry in entries {
        if batch.entries.as_slice().len() < BATCH_ENTRIES {
            batch.push(*entry);
        }
    }
    Ok(batch)
}

// Records what may be found after a call that failed. If it was the device that failed, every later call must
// be refused, and the replica must stay as it is.
fn meet<D: Disk>(
    alloc: Global,
    keeper: &mut Keeper<D>,
    act: &Act,
    made: &mut Made,
) -> Result<(), Trouble> {
    made.before = image_of(alloc, keeper.state())?;
    if made.fault != Some(Fault::Device) {
        return Ok(());
    }
    made.after = image_with(alloc, keeper.state(), act.entries.as_slice())?;
    made.is_sound = has_failed(alloc, keeper, act);
    let image = image_of(alloc, keeper.state())?;
    made.is_sound &= image.as_slice() == made.before.as_slice();
    Ok(())
}

fn has_failed<D: Disk>(alloc: Global, keeper: &mut Keeper<D>, act: &Act) -> bool {
    let failed = Err(Fault::Failed);
    keeper.has_failed()
        && append(alloc, keeper, act.entries.as_slice()) == failed
        && keeper.checkpoint_begin() == failed
        && keeper.checkpoint_step() == failed
        && keeper.checkpoint_finish() == failed
}

// The image of the state after the entries.
fn image_with(alloc: Global, state: &State, entries: &[Entry]) -> Result<Vec<u8>, Trouble> {
    let mut state = state.copy()?;
    let image = advanced(alloc, &mut state, entries);
    drop(state);
    image
}

fn advanced(alloc: Global, state: &mut State, entries: &[Entry]) -> Result<Vec<u8>, Trouble> {
    advance(state, entries)?;
    Ok(image_of(alloc, state)?)
}

/// Adds the entries, which must be legal.
pub fn advance(state: &mut State, entries: &[Entry]) -> Result<(), Trouble> {
    for entry in entries {
        let Ok(effect) = state.examine(entry) else {
            return Err(Trouble::Syntax);
        };
        state.advance(*entry, effect)?;
    }
    Ok(())
}

/// The image of the state in the store, or why it can't be opened.
pub fn found<D: Disk>(alloc: Global, disk: D) -> (D, Result<Vec<u8>, Fault>) {
    match Keeper::open(alloc, disk) {
        Ok(keeper) => {
            let image = image_of(alloc, keeper.state());
            (
                keeper.into_disk(),
                image.map_err(|error| Fault::NoMemory(error)),
            )
        }
        Err((fault, disk)) => (disk, Err(fault)),
    }
}

/// The place of the store, how many bytes of its journal are used, and its format; or the fault of its
/// opening.
pub fn opened<D: Disk>(alloc: Global, disk: D) -> (D, Result<String, Trouble>) {
    match Keeper::open(alloc, disk) {
        Ok(keeper) => {
            let place = keeper.state().place();
            let used = keeper.used();
            let format = format_name(keeper.store_format());
            let text = format!(in alloc; "place {place} used {used} format {format}");
            (keeper.into_disk(), text.map_err(Trouble::from))
        }
        Err((fault, disk)) => {
            let text = fault_text(alloc, &fault);
            (disk, text.map_err(Trouble::from))
        }
    }
}

/// Makes a store on the disk, if it has none. Returns whether there was a fault.
pub fn formatted<D: Disk>(alloc: Global, disk: D) -> (D, bool) {
    match Keeper::open_or_blank(alloc, disk) {
        Ok(keeper) => (keeper.into_disk(), false),
        Err(Unopened::Refused(_, disk)) => (disk, true),
        Err(Unopened::Blank(blank)) => match Keeper::format(alloc, blank) {
            Ok(keeper) => (keeper.into_disk(), false),
            Err((_, disk)) => (disk, true),
        },
    }
}
