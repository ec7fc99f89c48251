//! The desk: a server in one thread, which takes steps, one at a time (`docs/model.md`, "The desk"). Its
//! front has the state, the sessions, and mails, replies on their way out, in a box for each connection ("The
//! front"); its keeper has the store ("The keeper").

ghost use Rattle.std.specs.Prelude.{◌≡◌, ◌≤◌, ℕ, Bool, false, List, drop, length, IfOk, IfErr, IfSome};
ghost use Rattle.std.specs.Prelude.{IfNone};
ghost use Rattle.fe_memory.specs.Memory.{out_of_memory};
ghost use Rattle.fe_state.specs.State.{ServerState, IsWithinLimits};
ghost use Rattle.fe_journal.specs.Layout.{device_bytes};
ghost use Rattle.fe_keeper.specs.Stands.{EachStandsFor, LeavesPrefix};
ghost use Rattle.fe_desk.specs.DeskRunState.{Extends, IsFirstRunState};
ghost use Rattle.fe_desk.specs.Messages.{outputs};
ghost use Rattle.fe_desk.specs.Crash.{DeskState, Advances, IsFrom, disk_of, desk_anew};
ghost use Rattle.fe_desk.specs.Runs.{AreSilent, IsNextWritten, IsStep, IsTraceOf};
ghost use Rattle.fe_desk.specs.Acknowledged.{IsAcknowledged, StepAsksFor, HasToldAll};
ghost use Rattle.fe_desk.specs.declared.fault.DeskFault.TheVariants.{NoMemory};

use crate::desk_inner::DeskInner;
use crate::fault::DeskFault;
use crate::handed::Handed;
use crate::port_places::PortPlaces;
use crate::port_set::PortSet;
use crate::step::Step;
use crate::trace::Trace;
use fe_disk::Disk;
use fe_front::Front;
use fe_keeper::Keeper;
use std::alloc::Global;
use std::marker::Model;

/// The front, its connections' streams, and the keeper of a store.
///
/// An answer comes into a box only once its entry is synced. Mails are written at the end of the step that
/// puts them there or, if memory is short, in a later one.
pub struct Desk<D: Disk> {
    inner: DeskInner<D>,
    /// No box has a mail, and no reply waits. False where that is not known.
    quiet: bool,
    /// The ports to which something was written since the desk was opened, or since its trace was cleared,
    /// and maybe others.
    written: PortSet,
    places: PortPlaces,
}

impl<D: Disk + Drop> Drop for Desk<D> {
    fn drop(self) {
        let Desk {
            inner,
            quiet: _,
            written: _,
            places,
        } = self;
        drop(inner);
        drop(places);
    }
}

impl<D: Disk> Model for Desk<D> {
    ghost use Rattle.fe_desk.specs.Crash.{DeskState};
    ghost use Rattle.std.specs.Coded.{codes};
    ghost use Rattle.fe_state.specs.State.{state_code};
    ghost use Rattle.fe_front.specs.Front.{front_code};

    ghost Value = { DeskState D };

    ghost coded = { Prim.hlevel (codes, state_code, front_code) };

    ghost use Rattle.std.specs.Prelude.{◌≡◌, true};
    ghost use Rattle.fe_desk.specs.within.Desk.{ArePlaces, IsSilentFrom, desk_of, run_state_of, IsDesk};
    ghost use Rattle.fe_desk.specs.Messages.{outputs};
    ghost use Rattle.fe_desk.specs.Steps.{HasNoMail};

    ghost view = { λ d. desk_of d.inner };

    ghost invariant = { λ d. IsDesk D.Disk (desk_of d.inner)
        × (d.quiet ≡ true → HasNoMail (run_state_of d.inner))
        × IsSilentFrom 0 (outputs (run_state_of d.inner)) d.written
        × ArePlaces d.places (run_state_of d.inner).clients };
}

impl<D: Disk> Desk<D> {
    /// A desk over a keeper, with no connection. Fails only if memory runs out, and then returns the disk.
    pub(crate) fn over(alloc: Global, keeper: Keeper<D>) -> Result<Desk<D>, (DeskFault, D)>
        requires { keeper.store.has_failed ≡ false }
        ensures first { IfOk result (λ desk. IsFirstRunState keeper.state desk.run_state) }
        ensures acknowledged { (asked : ℕ → ℕ → Bool)
            → IfOk result (λ desk. IsAcknowledged keeper.state asked desk) }
        ensures keeper { IfOk result (λ desk. desk.keeper ≡ keeper) }
        ensures synced { IfOk result (λ desk. desk.synced ≡ 0) }
        ensures fault { IfErr result (λ e. e.0 ≡ NoMemory out_of_memory false) }
        ensures disk { IfErr result (λ e. e.1 ≡ keeper.store.disk) }
    {
        let state = match keeper.state().copy() {
            Ok(state) => state,
            Err(error) => return Err((
                DeskFault::NoMemory { error, fed: false },
                keeper.into_disk(),
            )),
        };
        let front = match Front::new(alloc, state) {
            Ok(front) => front,
            Err(error) => return Err((
                DeskFault::NoMemory { error, fed: false },
                keeper.into_disk(),
            )),
        };
        let trace = Trace::new(alloc);
        let places = PortPlaces::new(alloc);
        let desk = Desk {
            inner: DeskInner {
                front,
                keeper,
                trace,
                handed: Handed::Nothing,
                making: None,
                owes: false,
                alloc,
            },
            quiet: false,
            written: PortSet::new(),
            places,
        };
        Ok(desk)
    }

    /// Takes a step. After `Ok` all mails are written.
    ///
    /// After a fault of the device each step answers `Store(Failed)` and does nothing.
    pub fn step(&mut self, step: &Step) -> Result<(), DeskFault>
        // Its answer says what it did: it was taken, all of it or all but some mails; memory was short; or
        // the device failed, now or earlier.
        ensures is_step { IsStep D.Disk self.old step.now result self.new }
        // What is written goes on from what was.
        ensures extends { Extends (outputs self.old.run_state) (outputs self.new.run_state) }

        // Of a crash: the groups are a history from the state that was opened. A stop at any moment leaves a
        // prefix of it, with all groups that were stored before.
        ensures advances { Advances D.Disk self.old self.new }
        ensures stands { D.honest (disk_of self.new) → (begun : ServerState) → IsFrom begun self.new
            → (image : List ℕ)
            → D.may_leave (disk_of self.new) image
            → LeavesPrefix begun self.new.run_state.groups self.new.synced image }
        ensures few { self.new.synced ≤ length self.new.run_state.groups }
        ensures synced { self.new.keeper.store.has_failed ≡ false
            → self.new.synced ≡ length self.new.run_state.groups }

        // Of answers, whatever the step answers: if it asks only for sessions that its connection may ask for
        // (`asked`), all mails that were written stand on the groups that are stored.
        ensures acknowledged { (begun : ServerState) (asked : ℕ → ℕ → Bool) → IsWithinLimits begun
            → StepAsksFor asked self.old step.now
            → IsAcknowledged begun asked self.old → IsAcknowledged begun asked self.new }
    {
        let outcome = self
            .inner
            .step(step, self.quiet, &mut self.places, &mut self.written);
        self.quiet = outcome.is_ok();
        if outcome.is_err() {
            self.written.add_all();
        }
        outcome
    }

    /// The trace begins anew, so that a long run does not keep all that it did. If the disk is honest, each
    /// image that a stop may leave has to stand for the keeper's state. No batch may be stored and not
    /// posted, and no mail left to be written.
    pub fn clear_trace(&mut self)
        requires stands { D.honest (disk_of self.old)
            → EachStandsFor D.Disk (disk_of self.old) self.old.keeper.state }
        requires told { HasToldAll self.old.run_state }
        ensures anew { self.new ≡ desk_anew self.old }
        // What stood acknowledged stands, over the state that the keeper has.
        ensures acknowledged { (begun : ServerState) (asked : ℕ → ℕ → Bool) → IsFrom begun self.old
            → IsAcknowledged begun asked self.old → IsAcknowledged self.old.keeper.state asked self.new }
    {
        self.inner.trace.clear(&self.written);
        self.written = PortSet::new();
    }

    /// The index in the trace of the next port, from an index on, to which something was written since the
    /// desk was opened, or since its trace was cleared; or maybe of another one. Nothing was written to those
    /// that it passes over.
    pub fn next_written(&self, from: usize) -> Option<usize>
        ensures next { IfSome result (IsNextWritten (outputs self.now.run_state) from) }
        ensures none { IfNone result (AreSilent (drop from (outputs self.now.run_state))) }
    {
        let end = self.inner.trace.ports.len();
        if from >= end {
            return None;
        }
        let at = self.written.next(from, end);
        if at < end { Some(at) } else { None }
    }

    /// What the desk did since it was opened, or since its trace was cleared.
    pub fn trace(&self) -> &Trace
        ensures { IsTraceOf result.now self.now.run_state self.now.synced }
    {
        &self.inner.trace
    }

    /// The keeper of the store.
    pub fn keeper(&self) -> &Keeper<D>
        ensures { result.now ≡ self.now.keeper }
    {
        &self.inner.keeper
    }

    /// The trace and the disk.
    pub(crate) fn into_parts(self) -> (Trace, D)
        ensures trace { IsTraceOf result.0 self.run_state self.synced }
        ensures disk { result.1 ≡ disk_of self }
        ensures size { D.size result.1 ≡ device_bytes }
        ensures stands { D.honest (disk_of self) → (begun : ServerState) → IsFrom begun self
            → (image : List ℕ)
            → D.may_leave (disk_of self) image
            → LeavesPrefix begun self.run_state.groups self.synced image }
    {
        let Desk {
            inner,
            quiet: _,
            written: _,
            places,
        } = self;
        drop(places);
        let DeskInner {
            keeper,
            trace,
            front,
            handed,
            ..
        } = inner;
        drop(front);
        drop(handed);
        (trace, keeper.into_disk())
    }

    /// The disk, as the steps left it.
    pub fn into_disk(self) -> D
        ensures disk { result ≡ disk_of self }
        ensures size { D.size result ≡ device_bytes }
    {
        let (trace, disk) = self.into_parts();
        drop(trace);
        disk
    }
}
