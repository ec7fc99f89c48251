//! A policy that fails one call of a disk and passes all others on, for tests of what holds after a fault
//! (`docs/proved.md`, "The store").

ghost use Rattle.std.specs.Prelude.{◌≡◌, ◌≢◌, Some};

use crate::{Asked, Policy};

/// Passes this many device calls on, fails the next one, and passes on every call after it.
#[derive(Drop)]
pub struct FailOnce {
    calls_before: Option<u64>,
}

impl FailOnce {
    ghost use Rattle.fe_disk.specs.Guarded.{calls_before};

    /// A policy that passes this many calls on before the one that fails.
    pub fn new(calls: u64) -> FailOnce
        ensures { calls_before result ≡ Some calls }
    {
        FailOnce {
            calls_before: Some(calls),
        }
    }
}

impl Policy for FailOnce {
    ghost use Rattle.fe_disk.specs.Guarded.{calls_before, counted};

    ghost passes = { λ once. calls_before once ≢ Some 0 };

    ghost next = { counted };

    fn admit(&mut self, _asked: Asked) -> bool {
        match self.calls_before {
            None => true,
            Some(0) => {
                self.calls_before = None;
                false
            }
            Some(calls) => {
                self.calls_before = Some(calls - 1);
                true
            }
        }
    }
}
