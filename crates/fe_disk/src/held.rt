//! A policy that lets another thread hold the syncs of a disk back, for tests of what happens between a write
//! and its sync (`docs/proved.md`, "The store").

ghost use Rattle.std.specs.Prelude.{⊤};

use crate::sync_hold::SyncHold;
use crate::{Asked, Policy};
use std::alloc::Global;
use std::sync::{Arc, Wait};

/// Passes every call on. A sync is passed on only once its `SyncHold` lets it go.
#[derive(Drop)]
pub struct Held<R> {
    rt: R,
    hold: Arc<SyncHold, Global>,
}

impl<R: Wait + Drop> Held<R> {
    /// A policy whose syncs wait while `hold` holds them back.
    pub fn new(rt: R, hold: Arc<SyncHold, Global>) -> Held<R> {
        Held { rt, hold }
    }
}

impl<R: Wait> Policy for Held<R> {
    ghost passes = { λ held. ⊤ };

    ghost next = { λ held. held };

    fn admit(&mut self, asked: Asked) -> bool {
        match asked {
            Asked::Read | Asked::Write => {}
            Asked::Sync => self.hold.pass(&self.rt),
        }
        true
    }
}
