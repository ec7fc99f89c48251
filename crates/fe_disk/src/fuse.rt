//! A policy that fails every call of a disk from some call on, for tests that stop a run at each of its calls
//! (`docs/proved.md`, "The store").

ghost use Rattle.std.specs.Prelude.{◌≡◌, ◌<◌};

use crate::{Asked, Policy};

/// Passes this many device calls on, and fails every call after them.
#[derive(Drop)]
pub struct Fuse {
    calls_left: u64,
}

impl Fuse {
    ghost use Rattle.fe_disk.specs.Guarded.{calls_left};

    /// A fuse that passes this many calls on.
    pub fn new(calls: u64) -> Fuse
        ensures { calls_left result ≡ calls }
    {
        Fuse { calls_left: calls }
    }
}

impl Policy for Fuse {
    ghost use Rattle.fe_disk.specs.Guarded.{calls_left, burnt};

    ghost passes = { λ fuse. 0 < calls_left fuse };

    ghost next = { burnt };

    fn admit(&mut self, _asked: Asked) -> bool {
        let is_left = self.calls_left > 0;
        self.calls_left = self.calls_left.saturating_sub(1);
        is_left
    }
}
