//! The baton: at most one side (a connection's reading or writing thread) at a time makes several events in a
//! row.
//!
//! A hall is a front that many threads share under one lock; an event is one message handled or one mail
//! taken, in a hold of that lock of its own (`docs/model.md`, "The hall"). If many sides made several each,
//! all of them would compete with the committing thread for the lock. So a reading thread takes the baton
//! first if a piece completed several messages; a writing thread takes it once it took a mail and its box has
//! more. Others that have several wait for the baton, not at the lock. The baton always comes before the
//! lock. A side that has the baton waits for nothing but the lock: `Lock::wait` (`hold`) gives it up, and so
//! does a side that waits elsewhere.

use fe_shared::Free;
use std::sync::{Mutex, MutexGuard, Wait};

/// The baton of a hall: a lock whose value is not used.
#[derive(Drop)]
pub(crate) struct Baton {
    lock: Mutex<bool>,
}

/// Whether a side has the baton: the guard of its lock, or `None`.
#[derive(Drop)]
pub(crate) struct BatonGuard<'a> {
    guard: Option<MutexGuard<'a, bool>>,
}

impl Baton {
    pub(crate) fn new() -> Baton {
        Baton {
            lock: Mutex::new(false),
        }
    }
}

impl<'a> BatonGuard<'a> {
    /// The guard of a side that does not have the baton.
    pub(crate) fn none() -> BatonGuard<'a> {
        BatonGuard { guard: None }
    }

    /// Waits for the baton, unless the side has it.
    pub(crate) fn take<R: Wait>(&mut self, rt: &R, _free: &mut Free, baton: &'a Baton) {
        if self.guard.is_none() {
            self.guard = Some(baton.lock.lock(rt));
        }
    }

    /// Gives the baton up, if the side has it.
    pub(crate) fn give_up(&mut self) {
        self.guard = None;
    }
}
