//! Stores read with one byte changed, from a disk that forgets what is written.

use crate::act::Act;
use crate::desks::{store_fault, take_all};
use crate::keepers::make_all;
use crate::level::Level;
use crate::made::image_of;
use crate::shown::fault_text;
use crate::trouble::Trouble;
use crate::words::first_word;
use fe_desk::Desk;
use fe_disk::Liar;
use fe_keeper::{Fault, Keeper};
use std::alloc::Global;

/// The size of a store's device, in bytes.
const DEVICE_BYTES: usize = 4_202_496;

/// The bytes of a store, and calls on it.
#[derive(Clone, Copy)]
pub struct Lie<'a> {
    pub alloc: Global,
    pub level: Level,
    pub bytes: &'a [u8],
    pub acts: &'a [Act],
    /// The image of the state in these bytes, and that of another state which a changed byte may turn it
    /// into.
    pub start: &'a [u8],
    pub other: &'a [u8],
}

// The image of the opened store or why it can't be opened, and whether the calls after that ended as they
// may.
type LiarOutcome = (Result<Vec<u8>, Fault>, bool);

impl<'a> Lie<'a> {
    // The bytes with this one changed.
    fn changed(&self, at: usize, change: u8) -> Result<Liar, Trouble> {
        let mut bytes = self.bytes.to_vec(self.alloc)?;
        match bytes.get_mut(at) {
            Some(byte) => *byte ^= change,
            None => return Err(Trouble::Disk),
        }
        Ok(Liar::new(bytes))
    }

    fn kept(&self, liar: Liar) -> Result<LiarOutcome, Trouble> {
        match Keeper::open(self.alloc, liar) {
            Ok(keeper) => {
                let mut keeper = keeper;
                let told = self.keep(&mut keeper);
                drop(keeper.into_disk());
                told
            }
            Err((fault, liar)) => {
                drop(liar);
                Ok((Err(fault), true))
            }
        }
    }

    // Makes each call of a keeper. None may end with a fault, except a mismatch.
    fn keep(&self, keeper: &mut Keeper<Liar>) -> Result<LiarOutcome, Trouble> {
        let image = image_of(self.alloc, keeper.state())?;
        let mut is_sound = true;
        for act in self.acts.chunks(1) {
            let made = make_all(self.alloc, keeper, act)?;
            is_sound &= matches!(made.fault, None | Some(Fault::Mismatch { place: _ }));
        }
        Ok((Ok(image), is_sound))
    }

    fn desked(&self, liar: Liar) -> Result<LiarOutcome, Trouble> {
        match Desk::open(self.alloc, liar) {
            Ok(desk) => {
                let mut desk = desk;
                let told = self.sit(&mut desk);
                drop(desk.into_disk());
                told
            }
            Err((fault, liar)) => {
                drop(liar);
                Ok((Err(store_fault(fault)), true))
            }
        }
    }

    // Takes every step of a desk. None may end with a fault.
    fn sit(&self, desk: &mut Desk<Liar>) -> Result<LiarOutcome, Trouble> {
        let image = image_of(self.alloc, desk.keeper().state())?;
        let made = take_all(self.alloc, desk, self.acts)?;
        let is_sound = made.fault.is_none() && made.is_sound;
        Ok((Ok(image), is_sound))
    }

    /// Whether a store with this byte changed opens as expected: with a fault, in the `same` state, in the
    /// `other` state, or, for a desk, like a keeper (`kept`); and whether the calls after that end as they
    /// may.
    pub fn is_as(&self, at: usize, change: u8, wanted: &str) -> Result<bool, Trouble> {
        let liar = self.changed(at, change)?;
        let (found, is_sound) = match self.level {
            Level::Desk => self.desked(liar)?,
            _ => self.kept(liar)?,
        };
        let is_wanted = match first_word(wanted).0 {
            "same" => is_image(&found, self.start),
            "other" => is_image(&found, self.other),
            "kept" => self.is_kept(at, change, &found)?,
            _ => is_fault(self.alloc, &found, wanted)?,
        };
        drop(found);
        Ok(is_wanted && is_sound)
    }

    // Whether a keeper opens the same store with the same result: the same state, or the same fault in what
    // was read.
    fn is_kept(
        &self,
        at: usize,
        change: u8,
        found: &Result<Vec<u8>, Fault>,
    ) -> Result<bool, Trouble> {
        let liar = self.changed(at, change)?;
        let (liar, kept) = crate::keepers::found(self.alloc, liar);
        drop(liar);
        match (found, &kept) {
            (Ok(image), Ok(kept)) => Ok(image.as_slice() == kept.as_slice()),
            (Err(fault), Err(kept)) => Ok(fault == kept && is_read(*fault)),
            _ => Ok(false),
        }
    }
}

fn is_image(found: &Result<Vec<u8>, Fault>, image: &[u8]) -> bool {
    match found {
        Ok(found) => found.as_slice() == image,
        Err(_) => false,
    }
}

fn is_fault(alloc: Global, found: &Result<Vec<u8>, Fault>, wanted: &str) -> Result<bool, Trouble> {
    match found {
        Ok(_) => Ok(false),
        Err(fault) => {
            let text = fault_text(alloc, fault)?;
            Ok(text.as_str() == wanted)
        }
    }
}

// Whether the fault is one in what was read.
fn is_read(fault: Fault) -> bool {
    match fault {
        Fault::Unformatted => true,
        Fault::Damaged { offset } => offset < DEVICE_BYTES,
        _ => false,
    }
}
