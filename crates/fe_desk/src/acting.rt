//! The steps of a desk: what each does, and how it ends (`docs/model.md`, "The desk"). A mail is a reply on
//! its way out; it waits in its connection's box.

ghost use Rattle.std.specs.Prelude.{◌≡◌, ◌⊎◌, ℕ, true, false, IsTrue, OnOk, MatchResult};
ghost use Rattle.fe_desk.specs.DeskRunState.{Extends};
ghost use Rattle.fe_desk.specs.Messages.{outputs, desk_fault_of};
ghost use Rattle.fe_desk.specs.Crash.{Advances};
ghost use Rattle.fe_front.specs.Posting.{may_have, HasItsBox};
ghost use Rattle.fe_desk.specs.Steps.{AreWritten, HasNoMail};
ghost use Rattle.fe_desk.specs.Runs.{IsStep};
ghost use Rattle.fe_desk.specs.within.Desk.{ArePlaces, IsMailedFrom, IsSilentFrom, HasAllWithMail, port_bit};
ghost use Rattle.fe_desk.specs.within.Desk.{desk_of, run_state_of, IsDesk, IsReady, OnlyWrites};
ghost use Rattle.fe_desk.specs.within.Goes.{Empties, GoesAct, Settles};

use crate::box_emptying::{add_mailed, empty_boxes, has_lone_mail};
use crate::desk_inner::DeskInner;
use crate::fault::DeskFault;
use crate::messages::desk_fault;
use crate::port::has_no_mail;
use crate::port_places::PortPlaces;
use crate::port_set::PortSet;
use crate::step::Step;
use fe_disk::Disk;
use fe_front::ConnectionSet;
use fe_keeper::Fault;
use fe_memory::OutOfMemory;

/// So few ports cost less to go over than to look for.
const FEW: usize = 64;

impl<D: Disk> DeskInner<D> {
    /// Takes a step. With `quiet`, there is no mail before it. Adds the ports to which it may have written to
    /// `written`, if it does not fail.
    pub(crate) fn step(
        &mut self,
        step: &Step,
        quiet: bool,
        places: &mut PortPlaces,
        written: &mut PortSet,
    ) -> Result<(), DeskFault>
        requires desk { IsDesk D.Disk (desk_of self.old) }
        requires quiet { quiet ≡ true → HasNoMail (run_state_of self.old) }
        requires written { IsSilentFrom 0 (outputs (run_state_of self.old)) written.old }
        requires places { ArePlaces places.old (run_state_of self.old).clients }
        ensures desk { IsDesk D.Disk (desk_of self.new) }
        ensures is_step { IsStep D.Disk (desk_of self.old) step.now result (desk_of self.new) }
        ensures quiet { OnOk result (HasNoMail (run_state_of self.new)) }
        ensures written { OnOk result (IsSilentFrom 0 (outputs (run_state_of self.new)) written.new) }
        ensures places { ArePlaces places.new (run_state_of self.new).clients }
        ensures extends { Extends (outputs (run_state_of self.old)) (outputs (run_state_of self.new)) }
        ensures advances { Advances D.Disk (desk_of self.old) (desk_of self.new) }
    {
        if self.keeper.has_failed() {
            return Err(DeskFault::Store(Fault::Failed));
        }
        if let Err(error) = self.settle() {
            return Err(DeskFault::NoMemory { error, fed: false });
        }
        let mut mailed = ConnectionSet::new();
        self.act(step, &mut mailed, places)?;
        if quiet && has_no_mail(&self.front) {
            return Ok(());
        }
        add_mailed(&self.front, step.posts(quiet), &mut mailed);
        self.add_mailed_ports(quiet, &mailed, places, written);
        match self.empty(&mailed, written) {
            Ok(()) => Ok(()),
            Err(error) => Err(DeskFault::Unwritten(error)),
        }
    }

    /// Writes what an earlier step left unwritten.
    fn settle(&mut self) -> Result<(), OutOfMemory>
        requires { IsDesk D.Disk (desk_of self.old) }
        ensures settles { Settles result (run_state_of self.old) (run_state_of self.new) }
        ensures writes { OnlyWrites D.Disk (desk_of self.old) (desk_of self.new) }
    {
        if self.owes {
            let mut all = ConnectionSet::new();
            all.add_all();
            let mut ports = PortSet::new();
            ports.add_all();
            return self.empty(&all, &ports);
        }
        Ok(())
    }

    /// Empties every box. Where memory is short, the next step begins with it.
    fn empty(&mut self, mailed: &ConnectionSet, written: &PortSet) -> Result<(), OutOfMemory>
        requires desk { IsDesk D.Disk (desk_of self.old) }
        requires mailed { HasAllWithMail self.old.front mailed.now }
        requires written { IsMailedFrom 0 self.old.front (run_state_of self.old).clients written.now }
        ensures empties { Empties result (run_state_of self.old) (run_state_of self.new) }
        ensures writes { OnlyWrites D.Disk (desk_of self.old) (desk_of self.new) }
    {
        let outcome = empty_boxes(&mut self.front, &mut self.trace.ports, mailed, written);
        self.owes = outcome.is_err();
        outcome
    }

    /// Adds the ports to which something is to be written, and maybe others. With `quiet`, no reply waits.
    /// The only mail is mostly that of the connection whose bytes came last.
    fn add_mailed_ports(
        &self,
        quiet: bool,
        mailed: &ConnectionSet,
        places: &mut PortPlaces,
        written: &mut PortSet,
    )
        requires places { ArePlaces places.old (run_state_of self.now).clients }
        requires replies { quiet ≡ true → AreWritten (run_state_of self.now).clients }
        requires mailed { HasAllWithMail self.now.front mailed.now }
        ensures mailed { IsMailedFrom 0 self.now.front (run_state_of self.now).clients written.new }
        ensures still { (at : ℕ) → port_bit written.old at ≡ 1 → port_bit written.new at ≡ 1 }
        ensures all { quiet ≡ false → (at : ℕ) → port_bit written.new at ≡ 1 }
        ensures places { ArePlaces places.new (run_state_of self.now).clients }
    {
        if !quiet {
            written.add_all();
            return;
        }
        if has_lone_mail(&self.front, places.last) {
            if let Some(at) = places.known(places.last) {
                written.add(at);
                return;
            }
        }
        let ports = self.trace.ports.as_slice();
        if ports.len() <= FEW {
            written.add_all();
            return;
        }
        places.add_ports(ports, mailed, written);
    }

    /// What a step does before the boxes are emptied. A post adds the connections whose boxes it changed to
    /// the set.
    fn act(
        &mut self,
        step: &Step,
        changed: &mut ConnectionSet,
        places: &mut PortPlaces,
    ) -> Result<(), DeskFault>
        requires ready { IsReady D.Disk (desk_of self.old) }
        requires places { ArePlaces places.old (run_state_of self.old).clients }
        ensures places { ArePlaces places.new (run_state_of self.old).clients }
        ensures goes { GoesAct D.Disk (desk_of self.old) step.now result (desk_of self.new) }
        ensures changed { step.now ≡ Step.Post
            → (conn : ℕ) → IsTrue (may_have changed.new conn) ⊎ HasItsBox self.old.front self.new.front conn }
    {
        match step {
            Step::Connect { conn } => {
                match self.connect(*conn) {
                    Ok(()) => Ok(()),
                    Err(error) => Err(DeskFault::NoMemory { error, fed: false }),
                }
            }
            Step::Bytes { conn, piece } => self.bytes(*conn, piece.as_slice(), places),
            Step::Gone { conn } => {
                self.leave(*conn);
                Ok(())
            }
            Step::Cut => {
                self.cut();
                Ok(())
            }
            Step::Append => desk_outcome(self.store()),
            Step::Post => {
                self.post(changed);
                Ok(())
            }
            Step::CheckBegin => desk_outcome(self.keeper.checkpoint_begin()),
            Step::CheckStep => desk_outcome(self.keeper.checkpoint_step()),
            Step::CheckFinish => desk_outcome(self.keeper.checkpoint_finish()),
        }
    }
}

/// The result of a step that reads no bytes, after this answer of the keeper.
fn desk_outcome<T: Drop>(outcome: Result<T, Fault>) -> Result<(), DeskFault>
    ensures { MatchResult outcome (λ _. result ≡ Ok tt) (λ fault. result ≡ Err (desk_fault_of fault false)) }
{
    match outcome {
        Ok(_) => Ok(()),
        Err(fault) => Err(desk_fault(fault, false)),
    }
}
