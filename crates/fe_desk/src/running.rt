//! A run of a desk: it opens a store and takes steps, up to the first fault (`docs/model.md`, "The desk").
//! Groups are the batches of entries that it handed to the store.

ghost use Rattle.std.specs.Prelude.{◌≡◌, ◌↔◌, None, List, ℕ, false};
ghost use Rattle.fe_disk.specs.Runs.{LeavesOnly};
ghost use Rattle.fe_state.specs.State.{ServerState};
ghost use Rattle.fe_state.specs.History.{IsHistory};
ghost use Rattle.fe_keeper.specs.Stands.{StandsFor, EachStandsFor, LeavesPrefix};
ghost use Rattle.fe_desk.specs.Crash.{Advances, IsFrom, disk_of};
ghost use Rattle.fe_desk.specs.Runs.{IsRunOf, IsPastOpening, GoesTo, groups_of};

use crate::desk::Desk;
use crate::fault::DeskFault;
use crate::step::Step;
use crate::trace::Trace;
use fe_disk::Disk;
use fe_keeper::images_stand_for_one;
use std::alloc::Global;

/// What a run leaves: its trace, the disk, and the fault that ended it with the number of its step, counted
/// from 1; 0 is the opening.
#[derive(Drop)]
pub struct Ran<D: Disk> {
    pub trace: Trace,
    pub disk: D,
    pub fault: Option<(u64, DeskFault)>,
}

/// Opens a store and takes the steps in order, up to the first fault.
pub fn run<D: Disk>(alloc: Global, disk: D, steps: &[Step]) -> Ran<D>
    // The run ends at the opening, at a step, or whole: what it did, what it reports, and whether the device
    // failed. A store that is not opened is not written.
    ensures ran { IsRunOf D.Disk disk steps.now result }
    // Over an honest disk the groups are a history from the state that was there.
    ensures history { D.honest disk → (s : ServerState) → StandsFor (D.seen disk) s
        → IsHistory s (groups_of result.trace) }
    // If every image that a stop may leave at the start stands for that state, a stop at any moment leaves a
    // prefix of the history.
    ensures any_moment { D.honest disk → (s : ServerState) → EachStandsFor D.Disk disk s
        → LeavesOnly D.Disk disk result.disk (LeavesPrefix s (groups_of result.trace) 0) }
    // If the store was opened, a stop at the end leaves a prefix that has all groups that were stored.
    ensures stands { D.honest disk → (s : ServerState) → StandsFor (D.seen disk) s
        → IsPastOpening result.fault
        → (image : List ℕ) → D.may_leave result.disk image
        → LeavesPrefix s (groups_of result.trace) result.trace.synced image }
    // The disk is honest (it behaves as the disk model says) exactly if it was before, and has the size that
    // it had.
    ensures honesty { D.honest result.disk ↔ D.honest disk }
    ensures size { D.size result.disk ≡ D.size disk }
{
    let mut desk = match Desk::open(alloc, disk) {
        Ok(desk) => desk,
        Err((fault, disk)) => {
            return Ran {
                trace: Trace::new(alloc),
                disk,
                fault: Some((0, fault)),
            };
        }
    };
    images_stand_for_one();
    let fault = take_steps(&mut desk, steps);
    let (trace, disk) = desk.into_parts();
    Ran { trace, disk, fault }
}

/// Takes the steps up to the first fault.
fn take_steps<D: Disk>(desk: &mut Desk<D>, steps: &[Step]) -> Option<(u64, DeskFault)>
    requires works { desk.old.keeper.store.has_failed ≡ false }
    requires stands { D.honest (disk_of desk.old) → (begun : ServerState) → IsFrom begun desk.old
        → (image : List ℕ)
        → D.may_leave (disk_of desk.old) image
        → LeavesPrefix begun desk.old.run_state.groups desk.old.synced image }
    ensures goes { GoesTo D.Disk desk.old steps.now result desk.new }
    ensures advances { Advances D.Disk desk.old desk.new }
{
    for k in 0..steps.len() {
        if let Err(fault) = desk.step(&steps[k]) {
            return Some((k as u64 + 1, fault));
        }
    }
    None
}
