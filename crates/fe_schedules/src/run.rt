//! A run of a schedule: its lines as they come in pieces, and what they print (`docs/schedules.md`).

ghost use Rattle.std.specs.Prelude.{◌≡◌, ◌+◌, ◌++◌, ℕ, List, Option, [], ◌∷◌, string_bytes, IfOk, IfErr};
ghost use Rattle.std.specs.Prelude.{OnOk, OnErr, MatchResult};
ghost use Rattle.fe_text.specs.Line.{HasNoFeed};
ghost use Rattle.fe_schedules.specs.Schedule.{TellsDisk, TellsOfDisk, TellsDiskOrWriter};
ghost use Rattle.fe_schedules.specs.Ready.{IsNewDisk};
ghost use Rattle.fe_schedules.specs.Runs.{IsRun, RanLine, RanBytes, SaysLine, IsStray, IsFaultOf, IsTooLong};
ghost use Rattle.fe_schedules.specs.Runs.{SoFar, Whole, Ended, EndedIn, last_disk};

use crate::fault::{MachineFault, ScheduleFault};
use crate::line::{holds_after, line_in};
use crate::machine::Machine;
use crate::printed_reply::PrintedReply;
use fe_disk::MemoryDisk;
use fe_memory::OutOfMemory;
use fe_state::{Request, named};
use fe_text::{LONGEST_LINE, Line, Sink, first_line};
use fe_wire::ClientMessage;
use std::alloc::Global;

/// Printed text of this many bytes or more is written before the next line of the piece runs.
const FULL: usize = 65_536;

/// The state of a run.
#[derive(Drop)]
pub(crate) struct Run {
    machine: Machine,
    /// Whether the schedule is on hold: what is pending is not stored after a line.
    is_holding: bool,
    /// How many lines were taken, empty ones too.
    lines: u64,
    /// What has come of the line whose line feed has not come.
    begun: Vec<u8>,
    /// What is printed and not yet written.
    text: String,
    /// What the line at hand prints.
    line: String,
    /// The replies to the line at hand, in the order in which they are printed.
    printed_replies: Vec<PrintedReply>,
}

impl Run {
    /// Makes a new store on the disk, and a run over it before its first line. Fails with the disk.
    pub fn new(alloc: Global, disk: MemoryDisk) -> Result<Run, (MachineFault, MemoryDisk)>
        requires { IsNewDisk disk }
        ensures begins { IfOk result (λ run. (now : Option (List ℕ)) → SoFar [] now now run) }
        ensures text { IfOk result (λ run. string_bytes run.text ≡ []) }
        ensures fault { IfErr result (λ e. TellsDisk e.1 e.0) }
    {
        let begun = match Vec::with_capacity(alloc, LONGEST_LINE) {
            Ok(begun) => begun,
            Err(error) => return Err((MachineFault::Memory(OutOfMemory::from(error)), disk)),
        };
        let machine = Machine::new(alloc, disk)?;
        Ok(Run {
            machine,
            is_holding: false,
            lines: 0,
            begun,
            text: String::new(alloc),
            line: String::new(alloc),
            printed_replies: Vec::new(alloc),
        })
    }

    /// The disk of the store or, if a line `stop` failed, the disk at which it failed.
    pub fn into_disk(self) -> MemoryDisk
        ensures { result ≡ last_disk self.machine }
    {
        let Run { machine, .. } = self;
        machine.into_disk()
    }

    /// Runs all lines that end in this piece, keeps what follows them, and writes what they printed, also if
    /// one is at fault.
    pub fn take_piece<W: Sink>(&mut self, piece: &[u8], writer: &mut W) -> Result<(), ScheduleFault>
        requires { IsRun self.old }
        ensures none_kept { string_bytes self.new.text ≡ [] }
        ensures disk { IfErr result (TellsDiskOrWriter (last_disk self.new.machine)
            (W.has_failed writer.new)) }
        ensures taken { (read : List ℕ) (before : Option (List ℕ))
            → SoFar read before (W.contents writer.old) self.old
            → MatchResult result (λ _. SoFar (read ++ piece.now) before (W.contents writer.new) self.new)
            (λ end. EndedIn (W.has_failed writer.new) end (read ++ piece.now) before (W.contents writer.new)
            []) }
    {
        let ended = self.run_lines(piece, writer);
        writer.write_whole(&mut self.text)?;
        ended
    }

    /// Runs what follows the last line feed, if anything does, writes what it prints, and hands on all that
    /// was written.
    pub fn finish<W: Sink>(&mut self, writer: &mut W) -> Result<(), ScheduleFault>
        requires { IsRun self.old }
        ensures disk { IfErr result (TellsDiskOrWriter (last_disk self.new.machine)
            (W.has_failed writer.new)) }
        ensures ended { (read : List ℕ) (before : Option (List ℕ))
            → SoFar read before (W.contents writer.old) self.old
            → MatchResult result (λ _. Whole read before (W.contents writer.new) []
            (last_disk self.new.machine))
            (λ end. Ended (W.has_failed writer.new) end read before (W.contents writer.new) []) }
        ensures handed { OnOk result (W.is_handed_on writer.new) }
    {
        let ended = self.end_last();
        writer.write_whole(&mut self.text)?;
        ended?;
        Ok(writer.hand_on()?)
    }

    /// Runs all lines that end in this piece, and keeps what follows them.
    fn run_lines<W: Sink>(&mut self, piece: &[u8], writer: &mut W) -> Result<(), ScheduleFault>
        requires { IsRun self.old }
        ensures disk { IfErr result (TellsDiskOrWriter (last_disk self.new.machine)
            (W.has_failed writer.new)) }
        ensures taken { (read : List ℕ) (before : Option (List ℕ))
            → SoFar read before (W.contents writer.old) self.old
            → MatchResult result (λ _. SoFar (read ++ piece.now) before (W.contents writer.new) self.new)
            (λ end. EndedIn (W.has_failed writer.new) end (read ++ piece.now) before (W.contents writer.new)
            (string_bytes self.new.text)) }
    {
        let mut rest = piece;
        while let Some((line, behind)) = first_line(rest) {
            self.run_whole(line, writer)?;
            rest = behind;
        }
        self.begin_line(rest)
    }

    /// Runs the line that ends with these bytes and a line feed, and writes what is printed if that is `FULL`
    /// bytes or more.
    fn run_whole<W: Sink>(&mut self, bytes: &[u8], writer: &mut W) -> Result<(), ScheduleFault>
        requires { IsRun self.old }
        ensures run { OnOk result (IsRun self.new) }
        ensures disk { IfErr result (TellsDiskOrWriter (last_disk self.new.machine)
            (W.has_failed writer.new)) }
        ensures taken { (read : List ℕ) (before : Option (List ℕ))
            → SoFar read before (W.contents writer.old) self.old
            → HasNoFeed bytes.now
            → MatchResult result (λ _. SoFar (read ++ (bytes.now ++ 10 ∷ [])) before (W.contents writer.new)
            self.new)
            (λ end. EndedIn (W.has_failed writer.new) end (read ++ (bytes.now ++ 10 ∷ [])) before
            (W.contents writer.new) (string_bytes self.new.text)) }
    {
        self.end_line(bytes)?;
        if self.text.len() < FULL {
            return Ok(());
        }
        Ok(writer.write_whole(&mut self.text)?)
    }

    /// Appends bytes to the line that has not ended; `begun` has room for the longest line. If the line
    /// becomes longer, the fault is `Line` with its number.
    fn begin_line(&mut self, bytes: &[u8]) -> Result<(), ScheduleFault>
        requires { IsRun self.old }
        ensures run { OnOk result (IsRun self.new) }
        ensures same { self.new ≡ record self.old { begun = self.new.begun } }
        ensures begun { OnOk result (self.new.begun.items ≡ self.old.begun.items ++ bytes.now) }
        ensures err { IfErr result (IsTooLong (self.old.lines + 1) (self.old.begun.items ++ bytes.now)) }
    {
        if bytes.len() > LONGEST_LINE - self.begun.len() {
            return Err(ScheduleFault::Line(self.lines + 1));
        }
        match self.begun.extend_from_slice(bytes) {
            Ok(()) => Ok(()),
            Err(_) => unreachable!(),
        }
    }

    /// Runs the line that has begun, if there is one.
    fn end_last(&mut self) -> Result<(), ScheduleFault>
        requires { IsRun self.old }
        ensures disk { IfErr result (TellsOfDisk (last_disk self.new.machine)) }
        ensures ended { (read : List ℕ) (before now : Option (List ℕ)) → SoFar read before now self.old
            → MatchResult result (λ _. Whole read before now (string_bytes self.new.text)
            (last_disk self.new.machine))
            (λ end. Ended (λ _. ⊥) end read before now (string_bytes self.new.text)) }
    {
        let begun = self.begun.as_slice();
        if begun.is_empty() {
            return Ok(());
        }
        self.end_line(&[])
    }

    /// Runs the line that ends with these bytes.
    fn end_line(&mut self, bytes: &[u8]) -> Result<(), ScheduleFault>
        requires { IsRun self.old }
        ensures ran { OnOk result (RanBytes self.old (self.old.begun.items ++ bytes.now) self.new) }
        ensures text { OnErr result (string_bytes self.new.text ≡ string_bytes self.old.text) }
        ensures disk { IfErr result (TellsOfDisk (last_disk self.new.machine)) }
        // `Line` has the number of a line that does not parse. `Memory` and `Device` come of a line that
        // parses. `Input` comes at line 2^64 - 1, whatever it says: it is neither counted nor run.
        ensures err { IfErr result (IsFaultOf (self.old.lines + 1) (self.old.begun.items ++ bytes.now)) }
    {
        named::<Request>();
        named::<ClientMessage>();
        if self.lines == u64::MAX - 1 {
            return Err(ScheduleFault::Input);
        }
        let line = self.whole_line(bytes)?;
        self.lines += 1;
        match line {
            Some(line) => Ok(self.run_line(&line)?),
            None => Ok(()),
        }
    }

    /// The line that ends with these bytes, or none if it is empty. The fault is `Line` if it does not parse.
    fn whole_line(&mut self, bytes: &[u8]) -> Result<Option<Line>, ScheduleFault>
        requires { IsRun self.old }
        ensures run { OnOk result (IsRun self.new) }
        ensures same { self.new ≡ record self.old { begun = self.new.begun } }
        ensures begun { OnOk result (self.new.begun.items ≡ []) }
        ensures said { IfOk result (SaysLine (self.old.begun.items ++ bytes.now)) }
        ensures err { IfErr result (IsStray (self.old.lines + 1) (self.old.begun.items ++ bytes.now)) }
    {
        named::<Request>();
        named::<ClientMessage>();
        let stray = ScheduleFault::Line(self.lines + 1);
        if self.begun.is_empty() {
            return line_in(bytes).ok_or(stray);
        }
        self.begin_line(bytes)?;
        let line = line_in(self.begun.as_slice());
        self.begun.clear();
        line.ok_or(stray)
    }

    /// Runs a line, stores what is pending unless on hold, and prints the replies.
    fn run_line(&mut self, line: &Line) -> Result<(), MachineFault>
        requires run { IsRun self.old }
        ensures ran { OnOk result (RanLine self.old line.now self.new) }
        ensures fault { IfErr result (TellsDisk (last_disk self.new.machine)) }
        ensures text { OnErr result (string_bytes self.new.text ≡ string_bytes self.old.text) }
    {
        self.machine.act(line)?;
        self.is_holding = holds_after(line, self.is_holding);
        self.machine.commit(self.is_holding)?;
        self.line.clear();
        self.machine
            .print(&mut self.line, &mut self.printed_replies)?;
        match self.text.push_str(self.line.as_str()) {
            Ok(()) => Ok(()),
            Err(error) => Err(MachineFault::from(OutOfMemory::from(error))),
        }
    }
}
