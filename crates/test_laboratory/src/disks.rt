//! Calls of a disk by itself.

use crate::act::{Act, Verb};
use crate::made::Made;
use crate::trouble::Trouble;
use fe_disk::Disk;
use fe_keeper::Fault;
use std::alloc::Global;

/// Writes the bytes.
pub fn write<D: Disk>(disk: &mut D, at: usize, bytes: &[u8]) -> Result<(), Trouble> {
    if bytes.len() > disk.size() || at > disk.size() - bytes.len() {
        return Err(Trouble::Disk);
    }
    disk.write_at(at, bytes)?;
    Ok(())
}

/// Reads this many bytes from an offset.
pub fn read<D: Disk>(
    alloc: Global,
    disk: &mut D,
    at: usize,
    count: usize,
) -> Result<Vec<u8>, Trouble> {
    if count > disk.size() || at > disk.size() - count {
        return Err(Trouble::Disk);
    }
    let mut bytes = vec![in alloc; 0; count]?;
    disk.read_at(at, &mut bytes)?;
    Ok(bytes)
}

fn make<D: Disk>(disk: &mut D, act: &Act) -> Result<bool, Fault> {
    let outcome = match act.verb {
        Verb::Write => write(disk, act.number as usize, act.bytes.as_slice()).is_ok(),
        _ => disk.sync().is_ok(),
    };
    if outcome {
        return Ok(true);
    }
    Err(Fault::Device)
}

/// Makes all calls, whether or not they fail.
pub fn made<D: Disk>(alloc: Global, mut disk: D, acts: &[Act]) -> (D, Result<Made, Trouble>) {
    let made = make_all(alloc, &mut disk, acts);
    (disk, made)
}

fn make_all<D: Disk>(alloc: Global, disk: &mut D, acts: &[Act]) -> Result<Made, Trouble> {
    let mut made = Made::new(alloc);
    for act in acts {
        made.note(make(disk, act))?;
    }
    Ok(made)
}
