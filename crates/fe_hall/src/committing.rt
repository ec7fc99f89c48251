//! The committing side of a hall, a thread of its own: it stores the batches, each as a group, and posts them
//! (`docs/model.md`, "The hall").

ghost use Rattle.std.specs.Prelude.{◌≡◌, ◌↔◌, ◌+◌, false, Some, IfOk, IfErr, OnOk, length};
ghost use Rattle.fe_keeper.specs.Ends.{IsStill, Breaks};
ghost use Rattle.fe_keeper.specs.Stands.{EachStandsFor};
ghost use Rattle.fe_keeper.specs.declared.fault.Fault.TheVariants.{Device};
ghost use Rattle.fe_history.specs.Acts.{IsStored, WasCut};
ghost use Rattle.fe_hall.specs.Commits.{AppendsAreNoted, Commits, EndsAs, end_in};
ghost use Rattle.fe_hall.specs.within.Sides.{StoresOn, KeepsStanding};

use crate::breaking::Break;
use crate::ended::Ended;
use crate::hall::Hall;
use fe_disk::Disk;
use fe_history::{History, StoreSeat, Tally};
use fe_keeper::{Fault, Keeper};
use fe_shared::{CutBatch, CutOutcome, Free, Posted};
use std::sync::Wait;

/// A checkpoint is begun once more than this many bytes of the journal are used.
const MOST_USED: u32 = 524288;

/// Stores what the calls of a hall make, batch by batch, and posts each batch once it is stored. After each
/// batch it goes on with a checkpoint. It is for one thread, and ends once the hall is stopped and nothing is
/// pending; every other end stops the hall.
///
/// The history has each group after its append, and before any answer of it.
pub fn commit_side<C: Tally, M: Tally, D: Disk, R: Wait>(
    rt: &R,
    hall: &Hall<C, M>,
    keeper: &mut Keeper<D>,
    seat: &mut StoreSeat<M>,
) -> Ended
    ensures commits { (all : Commits D.Disk keeper.old keeper.new (Some result))
        × AppendsAreNoted D.Disk all.appends (Some result) seat.old seat.new }
    ensures stands { D.honest keeper.new.store.disk → keeper.new.store.has_failed ≡ false
        → EachStandsFor D.Disk keeper.new.store.disk keeper.new.state }
    ensures ended_as { EndsAs D.Disk keeper.old keeper.new (Some result) }
    ensures honesty { D.honest keeper.new.store.disk ↔ D.honest keeper.old.store.disk }
{
    // It names what is always true of the keeper (`docs/DECISIONS.md`, "Toolchain").
    let _ = keeper.state();
    let mut free = Free::of_committing(seat);
    let mut slices = true;
    let mut cuts = hall.history();
    for _ in rt.forever() {
        let cut = match hall.next_batch(rt, &mut free, &mut cuts) {
            CutOutcome::Batch(cut) => cut,
            CutOutcome::Stopped(all) => return Ended::stopped(all),
            CutOutcome::Strange(why) => return Ended::broken(Break::of_cut(why), hall.stop(rt)),
        };
        if let Err(why) = commit(rt, &mut free, hall, keeper, seat, cut, &cuts) {
            return Ended::broken(why, hall.stop(rt));
        }
        match tend(keeper, slices) {
            Ok(left) => slices = left,
            Err(fault) => return Ended::broken(Break::of_store(fault), hall.stop(rt)),
        }
    }
    unreachable!()
}

/// Stores a batch, notes it in the history and posts it. The error is why the side ends.
fn commit<C: Tally, M: Tally, D: Disk, R: Wait>(
    rt: &R,
    free: &mut Free,
    hall: &Hall<C, M>,
    keeper: &mut Keeper<D>,
    seat: &mut StoreSeat<M>,
    cut: CutBatch,
    cuts: &History<M>,
) -> Result<Posted, Break>
    requires cut { WasCut cuts.now cut.count cut.batch }
    ensures commits { StoresOn D.Disk keeper.old keeper.new (end_in result) seat.old seat.new }
    ensures works { OnOk result (keeper.old.store.has_failed ≡ false) }
    // It goes on only if it stored what was cut, and posted it.
    ensures stored { OnOk result (IsStored cut.batch keeper.new.state) }
    ensures posted { IfOk result (λ posted. posted ≡ cut.batch.first + length cut.batch.entries) }
{
    let (batch, count) = cut.into_batch(keeper);
    match keeper.append(batch) {
        Ok(batch) => {
            if let Err(why) = seat.note(hall.history_words(), &batch, count, cuts, keeper) {
                drop(batch);
                return Err(Break::of_note(why));
            }
            match hall.post(rt, free, batch, seat) {
                Ok(posted) => Ok(posted),
                Err(why) => Err(Break::of_post(why)),
            }
        }
        Err((fault, _)) => Err(Break::of_store(fault)),
    }
}

/// Goes on with the checkpoint, after a batch: writes a slice of it, or finishes it; if none is under way,
/// begins one when it is due, or later if there is no memory for it. `slices` says whether slices may be left
/// of it, and so does the answer. The fault is `Device`.
fn tend<D: Disk>(keeper: &mut Keeper<D>, slices: bool) -> Result<bool, Fault>
    requires works { keeper.old.store.has_failed ≡ false }
    ensures keeps { KeepsStanding D.Disk keeper.old keeper.new }
    ensures still { OnOk result (IsStill D.Disk keeper.old keeper.new) }
    ensures device { IfErr result (λ fault. (fault ≡ Device) × Breaks D.Disk keeper.old keeper.new) }
{
    // If its last slice was just written, none is begun beside it.
    if advance(keeper, slices)? {
        return Ok(slices);
    }
    if keeper.used() <= MOST_USED {
        return Ok(false);
    }
    match keeper.checkpoint_begin() {
        Ok(begun) => Ok(begun),
        Err(fault) => match fault {
            Fault::NoMemory(_) => Ok(false),
            _ => Err(fault),
        },
    }
}

/// Writes a slice of a checkpoint, or finishes it. Returns whether slices may be left of it, or whether it
/// was finished: there was one, which no append had finished before. The fault is `Device`.
fn advance<D: Disk>(keeper: &mut Keeper<D>, slices: bool) -> Result<bool, Fault>
    requires works { keeper.old.store.has_failed ≡ false }
    ensures keeps { KeepsStanding D.Disk keeper.old keeper.new }
    ensures still { OnOk result (IsStill D.Disk keeper.old keeper.new) }
    ensures device { IfErr result (λ fault. (fault ≡ Device) × Breaks D.Disk keeper.old keeper.new) }
{
    if slices {
        keeper.checkpoint_step()
    } else {
        keeper.checkpoint_finish()
    }
}
