//! The result of calls.

use crate::shown::fault_text;
use crate::trouble::Trouble;
use fe_codec::{Format, put_image};
use fe_keeper::Fault;
use fe_memory::OutOfMemory;
use fe_state::State;
use std::alloc::Global;

/// What was written to a connection.
#[derive(Drop)]
pub struct Written {
    pub conn: u64,
    pub bytes: Vec<u8>,
}

/// The result of calls on a disk.
#[derive(Drop)]
pub struct Made {
    /// The fault of the opening, or of the first call that failed.
    pub fault: Option<Fault>,
    /// For each call `y` if it answered true, `n` if false, or `x` if it failed.
    pub told: String,
    /// Whether all was right that is checked of the calls themselves.
    pub is_sound: bool,
    /// The images of one state or two: what is found on the disk must be one of them. Both are empty if no
    /// store was opened, and after calls of a disk or a journal.
    pub before: Vec<u8>,
    pub after: Vec<u8>,
    /// What a desk wrote, and the number of entries in each group that it gave its store.
    pub written: Vec<Written>,
    pub groups: String,
}

impl Made {
    /// The result before any call.
    pub fn new(alloc: Global) -> Made {
        Made {
            fault: None,
            told: String::new(alloc),
            is_sound: true,
            before: Vec::new(alloc),
            after: Vec::new(alloc),
            written: Vec::new(alloc),
            groups: String::new(alloc),
        }
    }

    /// The result if the store was not opened.
    pub fn refused(alloc: Global, fault: Fault) -> Made {
        let mut made = Made::new(alloc);
        made.fault = Some(fault);
        made
    }

    /// Records how a call ended, and returns whether it failed.
    pub fn note(&mut self, outcome: Result<bool, Fault>) -> Result<bool, Trouble> {
        match outcome {
            Ok(true) => self.told.push_str("y")?,
            Ok(false) => self.told.push_str("n")?,
            Err(fault) => {
                self.told.push_str("x")?;
                if self.fault.is_none() {
                    self.fault = Some(fault);
                }
                return Ok(true);
            }
        }
        Ok(false)
    }

    /// Whether the image is one that may be found: one of those two, or `start` if both are empty.
    pub fn allows(&self, image: &[u8], start: &[u8]) -> bool {
        if self.before.is_empty() {
            return image == start;
        }
        image == self.before.as_slice() || image == self.after.as_slice()
    }
}

/// The image of the state, in format 2.
pub fn image_of(alloc: Global, state: &State) -> Result<Vec<u8>, OutOfMemory> {
    let mut image = Vec::new(alloc);
    put_image(Format::Two, state, &mut image)?;
    Ok(image)
}

/// How the calls ended: `ok`, `unsound`, or the first fault.
pub fn outcome_text(alloc: Global, made: &Made) -> Result<String, Trouble> {
    if !made.is_sound {
        return Ok(String::from_str(alloc, "unsound")?);
    }
    match made.fault {
        None => Ok(String::from_str(alloc, "ok")?),
        Some(fault) => Ok(fault_text(alloc, &fault)?),
    }
}
