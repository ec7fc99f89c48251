//! What holds the syncs of a disk back until another thread lets them go, for the policy `Held`
//! (`docs/proved.md`, "The store").

use std::sync::{Condvar, Mutex, Wait};

#[derive(Clone, Copy, PartialEq, Eq)]
enum HoldStage {
    /// Syncs go on.
    Free,
    /// Syncs are held back, and none has come since `hold`.
    Set,
    /// Syncs are held back, and one or more have come since `hold` and wait.
    Holding,
}

/// Holds the syncs of a disk back between `hold` and `let_go`. Threads share it.
#[derive(Drop)]
pub struct SyncHold {
    stage: Mutex<HoldStage>,
    freed: Condvar,
}

impl SyncHold {
    /// Nothing is held back yet.
    pub fn new() -> SyncHold {
        SyncHold {
            stage: Mutex::new(HoldStage::Free),
            freed: Condvar::new(),
        }
    }

    /// Makes every sync wait from now on.
    pub fn hold(&self, rt: &impl Wait) {
        let mut stage = self.stage.lock(rt);
        if *stage == HoldStage::Free {
            *stage = HoldStage::Set;
        }
    }

    /// Whether a sync has come since `hold`, and waits.
    pub fn is_holding(&self, rt: &impl Wait) -> bool {
        *self.stage.lock(rt) == HoldStage::Holding
    }

    /// Lets waiting and later syncs go.
    pub fn let_go(&self, rt: &impl Wait) {
        *self.stage.lock(rt) = HoldStage::Free;
        self.freed.notify_all();
    }

    /// Waits while syncs are held back.
    pub fn pass<R: Wait>(&self, rt: &R) {
        let mut stage = self.stage.lock(rt);
        if *stage == HoldStage::Set {
            *stage = HoldStage::Holding;
        }
        drop(
            self.freed
                .wait_while(rt, stage, |stage| *stage != HoldStage::Free),
        );
    }
}
