//! The way of a batch, entries that follow one another, through a desk: it is cut, stored as a group, and
//! posted (`docs/model.md`, "The desk").

ghost use Rattle.std.specs.Prelude.{◌≡◌, ◌⊎◌, ℕ, IsTrue, IfOk, OnOk};
ghost use Rattle.fe_front.specs.Front.{has_room};
ghost use Rattle.fe_front.specs.Posting.{may_have, HasItsBox};
ghost use Rattle.fe_desk.specs.declared.handed.Handed.TheVariants.{Cut};
ghost use Rattle.fe_desk.specs.DeskRunState as way;
ghost use Rattle.fe_desk.specs.DeskRunState.{stored, posted, cleared};
ghost use Rattle.fe_desk.specs.Room.{begun_room, roomy, StopsMaking};
ghost use Rattle.fe_desk.specs.within.Desk.{desk_of, run_state_of, IsDesk, IsReady, Stays, with_handed};
ghost use Rattle.fe_desk.specs.within.Goes.{Goes, GoesTo, Is, IsUnstored, WasBegun};

use crate::desk_inner::DeskInner;
use crate::handed::Handed;
use fe_disk::Disk;
use fe_front::ConnectionSet;
use fe_keeper::Fault;
use fe_memory::OutOfMemory;
use fe_state::{Batch, Entry};
use std::alloc::Global;
use std::mem;

impl<D: Disk> DeskInner<D> {
    /// Cuts what is pending into a batch, which is out from then on, if there is something and no batch is
    /// out.
    pub(crate) fn cut(&mut self)
        ensures cut { run_state_of self.new ≡ way.cut (run_state_of self.old) }
        ensures stays { Stays D.Disk (desk_of self.old) (desk_of self.new) }
    {
        if let Some(batch) = self.front.cut() {
            self.handed = Handed::Cut(batch);
        }
    }

    /// Stores the batch that is cut, if there is one. The faults are `Device` and `NoMemory`.
    pub(crate) fn store(&mut self) -> Result<(), Fault>
        requires { IsReady D.Disk (desk_of self.old) }
        ensures { Goes D.Disk (Is (stored (run_state_of self.old))) (IsUnstored (desk_of self.old))
            (Is (run_state_of self.old)) result (desk_of self.old) (desk_of self.new) }
    {
        match mem::replace(&mut self.handed, Handed::Nothing) {
            Handed::Cut(batch) => {
                let (handed, outcome) = self.store_batch(batch);
                self.handed = handed;
                outcome
            }
            handed => {
                self.handed = handed;
                Ok(())
            }
        }
    }

    /// Hands a batch to the store, as a group of the trace. If there is no memory, the trace is left without
    /// it. If the device fails, it stays there, not counted as stored.
    fn store_batch(&mut self, batch: Batch) -> (Handed, Result<(), Fault>)
        requires { IsReady D.Disk (with_handed (desk_of self.old) (Cut batch)) }
        ensures { let old = with_handed (desk_of self.old) (Cut batch) in
            Goes D.Disk (Is (stored old.run_state)) (IsUnstored old) (Is old.run_state) result.1 old
            (with_handed (desk_of self.new) result.0) }
    {
        // From here on the proof has what is always true of the front (`docs/DECISIONS.md`, "Toolchain").
        let _ = self.front.state();
        let group = match copied(self.alloc, batch.entries.as_slice()) {
            Ok(group) => group,
            Err(error) => return (Handed::Cut(batch), Err(Fault::NoMemory(error))),
        };
        if let Err(failed) = self.trace.groups.push(group) {
            return (
                Handed::Cut(batch),
                Err(Fault::NoMemory(OutOfMemory::from(failed))),
            );
        }
        match self.keeper.append(batch) {
            Ok(batch) => {
                self.trace.synced = self.trace.groups.len() as u64;
                (Handed::Stored(batch), Ok(()))
            }
            Err((fault, batch)) => match fault {
                Fault::NoMemory(_) => {
                    let _ = self.trace.groups.pop();
                    (Handed::Cut(batch), Err(fault))
                }
                _ => (Handed::Cut(batch), Err(fault)),
            },
        }
    }

    /// Posts the batch that is stored, if there is one, and adds each connection whose box that changed. Room
    /// that was begun is made then.
    pub(crate) fn post(&mut self, changed: &mut ConnectionSet)
        requires { IsDesk D.Disk (desk_of self.old) }
        ensures posted { run_state_of self.new ≡ posted (run_state_of self.old) }
        ensures changed { (conn : ℕ)
            → IsTrue (may_have changed.new conn) ⊎ HasItsBox self.old.front self.new.front conn }
        ensures stays { Stays D.Disk (desk_of self.old) (desk_of self.new) }
    {
        match mem::replace(&mut self.handed, Handed::Nothing) {
            // The batch is the one that is out, so the front does not refuse it.
            Handed::Stored(batch) => {
                let _ = self.front.post(batch, changed);
                self.making = None;
            }
            handed => self.handed = handed,
        }
    }

    /// Stores the batch that is out, if it is not stored yet, and posts it.
    pub(crate) fn clear(&mut self) -> Result<(), Fault>
        requires { IsReady D.Disk (desk_of self.old) }
        ensures { GoesTo D.Disk (cleared (run_state_of self.old)) (Is (run_state_of self.old)) result
            (desk_of self.old) (desk_of self.new) }
    {
        self.store()?;
        self.post(&mut ConnectionSet::new());
        Ok(())
    }

    /// Makes room for a message of a connection. If memory is short, the rest of it is done for the
    /// connection's next message.
    pub(crate) fn make_room(&mut self, conn: u64) -> Result<(), Fault>
        requires { IsReady D.Disk (desk_of self.old) }
        ensures room { OnOk result (IsTrue (has_room self.new.front)) }
        ensures goes { GoesTo D.Disk (roomy (run_state_of self.old) conn)
            (StopsMaking (run_state_of self.old) conn)
            result (desk_of self.old) (desk_of self.new) }
    {
        self.go_on(conn)?;
        if self.front.room() {
            return Ok(());
        }
        // What is out is stored and posted, and then what is pending.
        self.clear()?;
        self.cut();
        self.making = Some(conn);
        self.clear()?;
        self.making = None;
        Ok(())
    }

    /// Goes on with the room that was begun for a message of this connection, if it was.
    fn go_on(&mut self, conn: u64) -> Result<(), Fault>
        requires { IsReady D.Disk (desk_of self.old) }
        ensures { GoesTo D.Disk (begun_room (run_state_of self.old) conn)
            (WasBegun (run_state_of self.old) conn)
            result (desk_of self.old) (desk_of self.new) }
    {
        if self.making == Some(conn) {
            self.clear()?;
            self.making = None;
        }
        Ok(())
    }
}

/// A copy of the entries, in a vector with room for just them.
fn copied(alloc: Global, entries: &[Entry]) -> Result<Vec<Entry>, OutOfMemory>
    ensures { IfOk result (λ group. group.items ≡ entries.now) }
{
    let mut group = Vec::with_capacity(alloc, entries.len())?;
    group.extend_from_slice(entries)?;
    Ok(group)
}
