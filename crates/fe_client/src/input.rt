//! The lines of a conversation's input (`docs/commands.md`, "Commands").

ghost use Rattle.std.specs.Prelude.{◌≤◌, ◌<◌, ◌≡◌, ◌++◌, length, IfErr, OnOk};
ghost use Rattle.fe_memory.specs.Memory.{out_of_memory};
ghost use Rattle.fe_client.specs.Ends.{IsTooLong};

use crate::asking::LONGEST_ASKED;
use crate::fault::CallFault;
use crate::streams::Streams;
use fe_memory::OutOfMemory;
use fe_text::{PIECE, READS, StreamFault, buffer, first_line};
use std::alloc::Global;

/// The lines of an input, one after the other.
#[derive(Drop)]
pub(crate) struct Input {
    /// The buffer: the last read filled it up to `end`, and the bytes before `next` are taken.
    piece: Vec<u8>,
    next: usize,
    end: usize,
    /// The line that is being taken, as far as it has come.
    line: Vec<u8>,
    /// The number of that line, from 1; 0 before the first.
    number: u64,
    /// How often the input was read.
    reads: u64,
    ghost order: { next ≤ end },
    ghost within: { end ≤ length piece.items },
    ghost room: { 0 < length piece.items },
    ghost few: { length line.items ≤ 94 },
}

impl Input {
    ghost use Rattle.std.specs.Prelude.{◌≡◌, ◌+◌, ◌++◌, [], ◌∷◌, ℕ, List, IfOk, IfErr, OnOk, OnErr};
    ghost use Rattle.std.specs.Prelude.{MatchBool};
    ghost use Rattle.fe_text.specs.Line.{HasNoFeed};
    ghost use Rattle.fe_client.specs.Events.{Event};
    ghost use Rattle.fe_client.specs.Input.{kept_of, Fills, TakesFed, TakesLast, NotTaken};
    ghost use Rattle.fe_client.specs.Ends.{Cause, IsTooLong};

    /// The lines of an input, before the first read.
    pub fn new(alloc: Global) -> Result<Input, CallFault>
        ensures kept { IfOk result (λ input. kept_of input ≡ []) }
        ensures number { IfOk result (λ input. input.number ≡ 0) }
        ensures reads { IfOk result (λ input. input.reads ≡ 0) }
        ensures err { IfErr result (λ fault. fault ≡ CallFault.Memory out_of_memory) }
    {
        let piece = buffer(alloc, PIECE)?;
        Ok(Input {
            piece,
            next: 0,
            end: 0,
            line: Vec::new(alloc),
            number: 0,
            reads: 0,
        })
    }

    /// The line that was taken last, without its line feed.
    pub fn line(&self) -> &[u8]
        ensures { result.now ≡ self.now.line.items }
    {
        self.line.as_slice()
    }

    /// The number of the line that was taken last, from 1.
    pub fn number(&self) -> u64
        ensures { result ≡ self.now.number }
    {
        self.number
    }

    /// Takes the next line, and says whether a line feed ends it. At the end of the input, what follows the
    /// last line feed, maybe nothing, is taken, and the result is `false`. The input is read only if no line
    /// feed is left in what was read before. The error is `Line` as soon as the line is longer than any of
    /// the syntax, 94 bytes; `Input` if a read fails, after 2^40 reads, or after 2^64 - 1 lines; `Memory` if
    /// memory runs out.
    pub fn next_line<E: Streams>(&mut self, streams: &mut E) -> Result<bool, CallFault>
        requires { E.because streams.old (Cause.ReadTimes self.old.reads) }
        ensures taken { IfOk result (λ fed. MatchBool fed
            (TakesFed E.leads streams.old streams.new (kept_of self.old) (kept_of self.new)
            self.new.line.items)
            (TakesLast E.leads streams.old streams.new (kept_of self.old) self.new.line.items)) }
        ensures number { OnOk result (self.new.number ≡ self.old.number + 1) }
        ensures err { IfErr result (λ end.
            NotTaken E.leads end (E.because streams.new) (self.old.number + 1) streams.old streams.new
            (kept_of self.old)) }
        ensures counts { OnOk result (E.because streams.new (Cause.ReadTimes self.new.reads)) }
    {
        if self.number == u64::MAX {
            return Err(CallFault::Input);
        }
        self.number += 1;
        self.line.clear();
        while self.reads < READS {
            if self.take_kept()? {
                return Ok(true);
            }
            self.reads += 1;
            if !self.fill(streams)? {
                return Ok(false);
            }
        }
        Err(CallFault::Input)
    }

    /// Takes what is left of the piece, up to its first line feed. Returns whether it has one.
    fn take_kept(&mut self) -> Result<bool, CallFault>
        ensures taken { IfOk result
            (λ fed. (front : List ℕ) × HasNoFeed front × (self.new.line.items ≡ self.old.line.items ++ front)
            × MatchBool fed (kept_of self.old ≡ front ++ 10 ∷ kept_of self.new) ((kept_of self.old ≡ front)
            × (kept_of self.new ≡ []))) }
        ensures number { self.new.number ≡ self.old.number }
        ensures reads { self.new.reads ≡ self.old.reads }
        ensures err { IfErr result
            (λ end. (front behind : List ℕ) × HasNoFeed front × (kept_of self.old ≡ front ++ behind)
            × IsTooLong end self.old.number (self.old.line.items ++ front)) }
    {
        let kept = &self.piece.as_slice()[self.next..self.end];
        match first_line(kept) {
            Some((front, _)) => {
                let count = front.len();
                add(&mut self.line, front, self.number)?;
                self.next += count + 1;
                Ok(true)
            }
            None => {
                add(&mut self.line, kept, self.number)?;
                self.next = self.end;
                Ok(false)
            }
        }
    }

    /// Reads the next piece; the last one must be taken whole. `false` if the input has ended; `true` also if
    /// the read was interrupted and gave nothing.
    fn fill<E: Streams>(&mut self, streams: &mut E) -> Result<bool, StreamFault>
        requires { kept_of self.old ≡ [] }
        ensures read { IfOk result (λ more. (events : List Event) × Fills more (kept_of self.new) events
            × E.leads streams.old events streams.new) }
        ensures err { OnErr result (E.leads streams.old [] streams.new) }
        ensures fails { IfErr result (λ why. E.because streams.new (Cause.Unreadable why)) }
        ensures counts { (count : ℕ) → E.because streams.old (Cause.ReadTimes count)
            → E.because streams.new (Cause.ReadTimes (count + 1)) }
        ensures line { self.new.line ≡ self.old.line }
        ensures number { self.new.number ≡ self.old.number }
        ensures reads { self.new.reads ≡ self.old.reads }
    {
        match streams.read(self.piece.as_mut_slice())? {
            Some(0) => Ok(false),
            Some(count) => {
                self.next = 0;
                self.end = count;
                Ok(true)
            }
            None => Ok(true),
        }
    }
}

/// Appends bytes to what has come of the line with this number. The error is `Line` if it becomes longer than
/// `LONGEST_ASKED`, `Memory` if memory runs out.
fn add(line: &mut Vec<u8>, bytes: &[u8], number: u64) -> Result<(), CallFault>
    requires few { length line.old.items ≤ 94 }
    ensures few { length line.new.items ≤ 94 }
    ensures ok { OnOk result (line.new.items ≡ line.old.items ++ bytes.now) }
    ensures err { IfErr result (λ end. IsTooLong end number (line.old.items ++ bytes.now)) }
{
    if bytes.len() > LONGEST_ASKED - line.len() {
        return Err(CallFault::Line(number));
    }
    match line.extend_from_slice(bytes) {
        Ok(()) => Ok(()),
        Err(error) => Err(CallFault::Memory(OutOfMemory::from(error))),
    }
}
