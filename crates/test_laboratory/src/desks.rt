//! Steps of a desk.

use crate::act::Act;
use crate::keepers::advance;
use crate::made::{Made, Written, image_of};
use crate::trouble::Trouble;
use fe_codec::{Format, read_image};
use fe_desk::{Desk, DeskFault, Port, Trace};
use fe_disk::Disk;
use fe_keeper::{Fault, Keeper, Unopened};
use fe_state::State;
use fe_wire::{ServerMessage, read_reply};
use std::alloc::Global;

/// The fault of the store; lack of memory counts as one.
pub fn store_fault(fault: DeskFault) -> Fault {
    match fault {
        DeskFault::Store(fault) => fault,
        DeskFault::NoMemory { error, .. } | DeskFault::Unwritten(error) => Fault::NoMemory(error),
    }
}

/// Opens a store with this image, and takes all steps.
pub fn made<D: Disk>(
    alloc: Global,
    disk: D,
    acts: &[Act],
    start: &[u8],
) -> (D, Result<Made, Trouble>) {
    match Desk::open(alloc, disk) {
        Ok(desk) => {
            let mut desk = desk;
            let made = traced(alloc, &mut desk, acts, start);
            (desk.into_disk(), made)
        }
        Err((fault, disk)) => (disk, Ok(Made::refused(alloc, store_fault(fault)))),
    }
}

fn traced<D: Disk>(
    alloc: Global,
    desk: &mut Desk<D>,
    acts: &[Act],
    start: &[u8],
) -> Result<Made, Trouble> {
    let mut made = take_all(alloc, desk, acts)?;
    tell(alloc, desk.trace(), start, &mut made)?;
    Ok(made)
}

/// Takes all steps. After a fault of the device every step must be refused.
pub fn take_all<D: Disk>(alloc: Global, desk: &mut Desk<D>, acts: &[Act]) -> Result<Made, Trouble> {
    let mut made = Made::new(alloc);
    for act in acts {
        take(desk, act, &mut made)?;
    }
    Ok(made)
}

fn take<D: Disk>(desk: &mut Desk<D>, act: &Act, made: &mut Made) -> Result<(), Trouble> {
    for step in act.steps.iter() {
        let outcome = match desk.step(step) {
            Ok(()) => Ok(true),
            Err(fault) => Err(store_fault(fault)),
        };
        if made.fault == Some(Fault::Device) {
            made.is_sound &= outcome == Err(Fault::Failed);
        }
        made.note(outcome)?;
    }
    Ok(())
}

// Records a trace: what was written, the groups, and two states; one of them must be found on the disk.
fn tell(alloc: Global, trace: &Trace, start: &[u8], made: &mut Made) -> Result<(), Trouble> {
    for port in trace.ports.iter() {
        let bytes = Vec::from_slice(alloc, port.written.as_slice())?;
        let conn = port.conn;
        made.written.push(Written { conn, bytes })?;
    }
    for group in trace.groups.iter() {
        let count = group.len();
        let text = format!(in alloc; " {count}")?;
        made.groups.push_str(text.as_str())?;
    }
    let count = trace.groups.len();
    let synced = trace.synced as usize;
    made.is_sound &= synced == count || synced.saturating_add(1) == count;
    made.before = image_after(alloc, trace, start, synced)?;
    made.after = image_after(alloc, trace, start, count)?;
    Ok(())
}

fn image_after(
    alloc: Global,
    trace: &Trace,
    start: &[u8],
    groups: usize,
) -> Result<Vec<u8>, Trouble> {
    match read_image(alloc, Format::Two, start) {
        Ok(state) => {
            let mut state = state;
            let image = built(alloc, trace, &mut state, groups);
            drop(state);
            image
        }
        Err(_) => Err(Trouble::Disk),
    }
}

// The image of the state after the groups. Each welcome and each answer that was written must be in the
// state.
fn built(
    alloc: Global,
    trace: &Trace,
    state: &mut State,
    groups: usize,
) -> Result<Vec<u8>, Trouble> {
    for group in trace.groups.iter().take(groups) {
        advance(state, group.as_slice())?;
    }
    for port in trace.ports.iter() {
        if !is_held(alloc, state, port)? {
            return Err(Trouble::Disk);
        }
    }
    Ok(image_of(alloc, state)?)
}

// Whether each welcome and each answer that was written to the connection is in the state.
fn is_held(alloc: Global, state: &State, port: &Port) -> Result<bool, Trouble> {
    let mut frames = port.written.as_slice();
    let mut own = 0;
    for _ in 0..100_000 {
        let Some((frame, behind)) = first_frame(frames) else {
            break;
        };
        if !is_reply_held(alloc, state, &mut own, frame)? {
            return Ok(false);
        }
        frames = behind;
    }
    Ok(frames.is_empty())
}

fn first_frame(frames: &[u8]) -> Option<(&[u8], &[u8])> {
    match frames {
        [a, b, c, d, ..] => {
            let length = u32::from_be_bytes([*a, *b, *c, *d]) as usize;
            let length = length.saturating_add(4);
            if length > frames.len() {
                return None;
            }
            Some(frames.split_at(length))
        }
        _ => None,
    }
}

fn is_reply_held(
    alloc: Global,
    state: &State,
    own: &mut u64,
    frame: &[u8],
) -> Result<bool, Trouble> {
    match read_reply(alloc, frame)? {
        None => Ok(false),
        Some(reply) => {
            let held = holds(state, own, &reply);
            drop(reply);
            Ok(held)
        }
    }
}

// The answers belong to the session of the last welcome. An answer below its floor is no longer kept.
fn holds(state: &State, own: &mut u64, reply: &ServerMessage) -> bool {
    match reply {
        ServerMessage::Welcome { session, floor } => {
            *own = *session;
            state.floor(*session) >= Some(*floor)
        }
        ServerMessage::Answer { number, answer } => match state.kept(*own, *number) {
            Some(kept) => kept.answer == *answer,
            None => Some(*number) < state.floor(*own),
        },
        _ => true,
    }
}

/// The image of the state in the store, or why it can't be opened.
pub fn found<D: Disk>(alloc: Global, disk: D) -> (D, Result<Vec<u8>, Fault>) {
    match Desk::open(alloc, disk) {
        Ok(desk) => {
            let image = image_of(alloc, desk.keeper().state());
            (
                desk.into_disk(),
                image.map_err(|error| Fault::NoMemory(error)),
            )
        }
        Err((fault, disk)) => (disk, Err(store_fault(fault))),
    }
}

/// Makes a store on the disk, if it has none. Returns whether there was a fault.
pub fn formatted<D: Disk>(alloc: Global, disk: D) -> (D, bool) {
    match Keeper::open_or_blank(alloc, disk) {
        Ok(keeper) => (keeper.into_disk(), false),
        Err(Unopened::Refused(_, disk)) => (disk, true),
        Err(Unopened::Blank(blank)) => match Desk::format(alloc, blank) {
            Ok(desk) => (desk.into_disk(), false),
            Err((_, disk)) => (disk, true),
        },
    }
}
