//! Calls of a journal, made only if their conditions hold.

use crate::act::{Act, Verb};
use crate::made::Made;
use crate::trouble::Trouble;
use fe_disk::Disk;
use fe_journal::{Format, Found, Groups, Journal, StoreFault};
use fe_keeper::Fault;
use fe_memory::OutOfMemory;
use std::alloc::Global;

/// Opens a store, and makes the calls up to the first that fails.
pub fn made<D: Disk>(alloc: Global, disk: D, acts: &[Act]) -> (D, Result<Made, Trouble>) {
    match Journal::find(alloc, disk) {
        Ok(found) => {
            let Found {
                mut journal,
                image,
                groups,
            } = found;
            drop(image);
            drop(groups);
            let made = make_all(alloc, &mut journal, acts);
            (journal.into_disk(), made)
        }
        Err(unopened) => {
            let (fault, disk) = unopened.into_parts(StoreFault::Unformatted);
            (disk, Ok(Made::refused(alloc, Fault::from(fault))))
        }
    }
}

fn make_all<D: Disk>(
    alloc: Global,
    journal: &mut Journal<D>,
    acts: &[Act],
) -> Result<Made, Trouble> {
    let mut made = Made::new(alloc);
    for act in acts {
        let outcome = make(journal, act);
        if made.note(outcome)? {
            break;
        }
    }
    Ok(made)
}

// Makes a call and returns `true`, or returns `false` if its condition does not hold.
fn make<D: Disk>(journal: &mut Journal<D>, act: &Act) -> Result<bool, Fault> {
    let bytes = act.bytes.as_slice();
    match act.verb {
        Verb::Group => append(journal, bytes),
        Verb::Close => close(journal, act.number as usize),
        Verb::Slice => write(journal, bytes),
        Verb::Open => finish(journal, bytes),
        _ => Ok(false),
    }
}

fn append<D: Disk>(journal: &mut Journal<D>, payload: &[u8]) -> Result<bool, Fault> {
    if !journal.store_format().allows_payload(payload.len())
        || payload.len() > journal.room() as usize
    {
        return Ok(false);
    }
    journal.append_group(payload)?;
    Ok(true)
}

fn close<D: Disk>(journal: &mut Journal<D>, image_length: usize) -> Result<bool, Fault> {
    let generation = journal.generation();
    if generation == u64::MAX || journal.begun().is_some() {
        return Ok(false);
    }
    if !Format::Two.allows_image(image_length) {
        return Ok(false);
    }
    journal.slot_close(Format::Two, generation + 1, image_length)?;
    Ok(true)
}

fn write<D: Disk>(journal: &mut Journal<D>, slice: &[u8]) -> Result<bool, Fault> {
    let Some(begun) = journal.begun() else {
        return Ok(false);
    };
    if slice.len() > 65_536 || begun.written > begun.image_length {
        return Ok(false);
    }
    if slice.len() > begun.image_length - begun.written {
        return Ok(false);
    }
    journal.slot_write(slice)?;
    Ok(true)
}

fn finish<D: Disk>(journal: &mut Journal<D>, catch_up: &[u8]) -> Result<bool, Fault> {
    let Some(begun) = journal.begun() else {
        return Ok(false);
    };
    if begun.written != begun.image_length {
        return Ok(false);
    }
    if !catch_up.is_empty() && !begun.format.allows_payload(catch_up.len()) {
        return Ok(false);
    }
    journal.slot_finish(catch_up)?;
    Ok(true)
}

/// The contents of a store: its generation, its image with the length, and its groups with their lengths.
pub fn held<D: Disk>(alloc: Global, disk: D) -> (D, Result<Vec<u8>, Fault>) {
    match Journal::find(alloc, disk) {
        Ok(found) => {
            let Found {
                journal,
                image,
                groups,
            } = found;
            let generation = journal.generation();
            let spelled = spelled(alloc, generation, image.as_slice(), groups);
            drop(image);
            (journal.into_disk(), spelled)
        }
        Err(unopened) => {
            let (fault, disk) = unopened.into_parts(StoreFault::Unformatted);
            (disk, Err(Fault::from(fault)))
        }
    }
}

fn put_number(out: &mut Vec<u8>, number: u64) -> Result<(), OutOfMemory> {
    out.extend_from_slice(&number.to_be_bytes())?;
    Ok(())
}

fn put_row(out: &mut Vec<u8>, bytes: &[u8]) -> Result<(), OutOfMemory> {
    put_number(out, bytes.len() as u64)?;
    out.extend_from_slice(bytes)?;
    Ok(())
}

// A journal has at most 15,196 groups: the smallest takes 69 bytes.
fn spelled(
    alloc: Global,
    generation: u64,
    image: &[u8],
    mut groups: Groups,
) -> Result<Vec<u8>, Fault> {
    let mut out = Vec::new(alloc);
    put_number(&mut out, generation)?;
    put_row(&mut out, image)?;
    for _ in 0..300_000 {
        match groups.payload() {
            None => break,
            Some(payload) => put_row(&mut out, payload)?,
        }
        groups.skip();
    }
    drop(groups);
    Ok(out)
}
