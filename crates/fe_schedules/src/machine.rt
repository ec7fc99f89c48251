//! What a schedule (`docs/schedules.md`) runs on: a desk, a server in one thread (`docs/model.md`, "The
//! desk"), over a store in memory. It keeps the record of a line, the groups that were stored and the
//! replies, only until the replies are printed.

ghost use Rattle.std.specs.Prelude.{◌≡◌, [], ◌∷◌, string_bytes, OnOk, IfOk, IfErr};
ghost use Rattle.fe_desk.specs.Acknowledged.{HasNoneToPost};
ghost use Rattle.fe_desk.specs.DeskRunState.{IsFirstRunState};
ghost use Rattle.fe_state.specs.State.{first_state};
ghost use Rattle.fe_schedules.specs.Schedule.{TellsDisk, endings};
ghost use Rattle.fe_schedules.specs.Ready.{HoldsStore, IsNewDisk, IsBetweenLines};
ghost use Rattle.fe_schedules.specs.Runs.{IsMachine, ActsOn, TakesSteps, PrintsTrace, last_disk};

use crate::fault::MachineFault;
use crate::printed_reply::{PrintedReply, print_replies};
use crate::reading::read_all;
use fe_desk::{Desk, Step};
use fe_disk::{MemoryDisk, Torn};
use fe_journal::DEVICE_BYTES;
use fe_keeper::{Blank, Keeper, Unopened, images_stand_for_one};
use fe_memory::OutOfMemory;
use fe_text::Line;
use fe_wire::{ClientMessage, put_message};
use std::alloc::Global;
use std::mem;

/// A desk over a store in memory.
#[derive(Drop)]
pub(crate) struct Machine {
    desk: Desk<MemoryDisk>,
    /// The disk at which a `stop` failed.
    lost: Option<MemoryDisk>,
    /// The buffer for the frame of a message.
    frame: Vec<u8>,
    alloc: Global,
}

impl Machine {
    /// A machine with a new store on the disk and no connection.
    pub fn new(alloc: Global, disk: MemoryDisk) -> Result<Machine, (MachineFault, MemoryDisk)>
        requires { IsNewDisk disk }
        ensures machine { IfOk result IsMachine }
        ensures first { IfOk result (λ machine. IsFirstRunState first_state machine.desk.run_state) }
        ensures state { IfOk result (λ machine. machine.desk.keeper.state ≡ first_state) }
        ensures between { IfOk result (λ machine. IsBetweenLines machine.desk) }
        ensures fault { IfErr result (λ e. TellsDisk e.1 e.0) }
    {
        match Keeper::open_or_blank(alloc, disk) {
            Err(Unopened::Blank(blank)) => Machine::formatted(alloc, blank),
            Err(Unopened::Refused(_, disk)) => Err((MachineFault::Device, disk)),
            Ok(_) => unreachable!(),
        }
    }

    /// A machine with a new store on the disk, which has none, and no connection.
    fn formatted(
        alloc: Global,
        blank: Blank<MemoryDisk>,
    ) -> Result<Machine, (MachineFault, MemoryDisk)>
        requires { HoldsStore blank }
        ensures machine { IfOk result IsMachine }
        ensures first { IfOk result (λ machine. IsFirstRunState first_state machine.desk.run_state) }
        ensures state { IfOk result (λ machine. machine.desk.keeper.state ≡ first_state) }
        ensures between { IfOk result (λ machine. IsBetweenLines machine.desk) }
        ensures fault { IfErr result (λ e. TellsDisk e.1 e.0) }
    {
        match Desk::format(alloc, blank) {
            Ok(desk) => Ok(Machine {
                desk,
                lost: None,
                frame: Vec::new(alloc),
                alloc,
            }),
            Err((fault, disk)) => Err((MachineFault::of_desk(fault), disk)),
        }
    }

    /// The disk at which a `stop` failed, or else that of the desk.
    pub fn into_disk(self) -> MemoryDisk
        ensures { result ≡ last_disk self }
    {
        let Machine { desk, lost, .. } = self;
        match lost {
            Some(disk) => {
                drop(desk);
                disk
            }
            None => desk.into_disk(),
        }
    }

    /// Takes the steps of a line. What they leave pending is stored by `commit`.
    pub fn act(&mut self, line: &Line) -> Result<(), MachineFault>
        requires machine { IsMachine self.old }
        ensures acts { OnOk result (ActsOn self.old line.now self.new) }
        ensures fault { IfErr result (TellsDisk (last_disk self.new)) }
    {
        match line {
            Line::Message { conn, message } => self.receive(*conn, message),
            Line::Gone { conn } => self.step(&Step::Gone { conn: *conn }),
            Line::Hold | Line::Flush => Ok(()),
            Line::Stop => self.stop(),
            // A whole checkpoint is made, if anything was stored since the last one.
            Line::Check => {
                self.step(&Step::CheckBegin)?;
                self.step(&Step::CheckFinish)
            }
        }
    }

    /// Makes the connection if it is not there, and brings its message as a frame.
    fn receive(&mut self, conn: u64, message: &ClientMessage) -> Result<(), MachineFault>
        requires machine { IsMachine self.old }
        ensures acts { OnOk result (ActsOn self.old (Line.Message conn message.now) self.new) }
        ensures fault { IfErr result (TellsDisk (last_disk self.new)) }
    {
        self.step(&Step::Connect { conn })?;
        let mut piece = mem::replace(&mut self.frame, Vec::new(self.alloc));
        piece.clear();
        put_message(&mut piece, message)?;
        let step = Step::Bytes { conn, piece };
        let outcome = self.step(&step);
        if let Step::Bytes { piece, .. } = step {
            self.frame = piece;
        }
        outcome
    }

    /// Stores and posts what is pending, unless on hold.
    pub fn commit(&mut self, is_holding: bool) -> Result<(), MachineFault>
        requires { IsMachine self.old }
        ensures moved { OnOk result (TakesSteps self.old (endings is_holding) self.new) }
        ensures fault { IfErr result (TellsDisk (last_disk self.new)) }
    {
        if is_holding {
            return Ok(());
        }
        self.step(&Step::Cut)?;
        self.step(&Step::Append)?;
        self.step(&Step::Post)
    }

    /// Stops, and opens the store again as it was at its last sync. No connection is there then, and nothing
    /// waits.
    fn stop(&mut self) -> Result<(), MachineFault>
        requires { IsMachine self.old }
        // The image of the last sync is opened: all that was stored is there, and nothing else.
        ensures acts { OnOk result (ActsOn self.old Line.Stop self.new) }
        ensures fault { IfErr result (TellsDisk (last_disk self.new)) }
    {
        images_stand_for_one();
        // A machine over an empty store takes this one's place until its store is opened again.
        let disk = MemoryDisk::new(self.alloc, DEVICE_BYTES)?;
        let between = match Machine::new(self.alloc, disk) {
            Ok(machine) => machine,
            Err((fault, disk)) => return Err(self.lose(fault, disk)),
        };
        let disk = mem::replace(self, between).into_disk();
        let left = match disk.stopped(Torn::Lost) {
            Ok(left) => left,
            Err(error) => return Err(self.lose(MachineFault::Memory(error), disk)),
        };
        drop(disk);
        match Desk::open(self.alloc, left) {
            Ok(desk) => {
                drop(mem::replace(&mut self.desk, desk));
                Ok(())
            }
            Err((fault, left)) => Err(self.lose(MachineFault::of_desk(fault), left)),
        }
    }

    /// Keeps the disk at which a `stop` failed, and returns the fault.
    fn lose(&mut self, fault: MachineFault, disk: MemoryDisk) -> MachineFault
        ensures same { result ≡ fault }
        ensures disk { last_disk self.new ≡ disk }
    {
        self.lost = Some(disk);
        fault
    }

    /// Prints the replies to each connection, and lets go of them and of the groups of entries that were
    /// stored.
    pub fn print(
        &mut self,
        text: &mut String,
        printed_replies: &mut Vec<PrintedReply>,
    ) -> Result<(), OutOfMemory>
        requires machine { IsMachine self.old }
        requires posted { HasNoneToPost self.old.desk.run_state.handed }
        ensures printed { OnOk result
            (PrintsTrace self.old self.new (string_bytes text.old) (string_bytes text.new)) }
        ensures disk { last_disk self.new ≡ last_disk self.old }
    {
        read_all(self.alloc, &self.desk, printed_replies)?;
        // Replies under one number keep their order.
        printed_replies.sort_by_key(|one| one.key())?;
        print_replies(text, printed_replies.as_slice())?;
        self.desk.clear_trace();
        Ok(())
    }

    /// Takes a step.
    fn step(&mut self, step: &Step) -> Result<(), MachineFault>
        requires { IsMachine self.old }
        ensures moved { OnOk result (TakesSteps self.old (step.now ∷ []) self.new) }
        ensures fault { IfErr result (TellsDisk (last_disk self.new)) }
    {
        match self.desk.step(step) {
            Ok(()) => Ok(()),
            Err(fault) => Err(MachineFault::of_desk(fault)),
        }
    }
}
