//! What a script works on: a disk, its calls, and the result of the last run.

use crate::act::{Act, act_of, taking};
use crate::disks;
use crate::level::Level;
use crate::made::Made;
use crate::names::Names;
use crate::tally::Counts;
use crate::trial::{Run, Trial};
use crate::trouble::Trouble;
use crate::words::{first_number, first_word, number};
use fe_codec::Format;
use fe_disk::{MemoryDisk, Torn};
use fe_journal::{Journal, Unopened};
use std::alloc::Global;

/// The size of a store's device, in bytes.
pub const DEVICE_BYTES: usize = 4_202_496;

/// A disk, the calls to make on it, and the result of the last run.
#[derive(Drop)]
pub struct Bench {
    pub alloc: Global,
    pub names: Names,
    pub disk: MemoryDisk,
    pub level: Level,
    // The calls as the script spells them: the bytes of a name in them may change later.
    calls: Vec<String>,
    pub made: Made,
    pub counts: Counts,
}

/// The format with this number.
pub fn format_of(word: &str) -> Result<Format, Trouble> {
    match word {
        "1" => Ok(Format::One),
        "2" => Ok(Format::Two),
        _ => Err(Trouble::Syntax),
    }
}

impl Bench {
    /// A bench with a disk of no bytes, no names and no calls.
    pub fn new(alloc: Global) -> Result<Bench, Trouble> {
        Ok(Bench {
            alloc,
            names: Names::new(alloc),
            disk: MemoryDisk::new(alloc, 0)?,
            level: Level::Disk,
            calls: Vec::new(alloc),
            made: Made::new(alloc),
            counts: Counts::NONE,
        })
    }

    /// Carries out a line that checks nothing: `let NAME BYTES`, `disk SIZE`, `store FORMAT`,
    /// `write PLACE BYTES`, `calls LEVEL`, which begins a list of calls, or `- CALL`, which adds a call to
    /// it.
    pub fn set(&mut self, word: &str, rest: &str) -> Result<(), Trouble> {
        match word {
            "let" => {
                let (name, spelled) = first_word(rest);
                let bytes = self.names.bytes_of(spelled)?;
                self.names.set(name, bytes)
            }
            "disk" => {
                self.disk = MemoryDisk::new(self.alloc, number(rest)? as usize)?;
                Ok(())
            }
            "store" => self.make_store(format_of(rest)?),
            "write" => self.write(rest),
            "calls" => {
                self.level = Level::of(rest)?;
                self.calls.clear();
                Ok(())
            }
            _ => {
                self.calls.push(String::from_str(self.alloc, rest)?)?;
                Ok(())
            }
        }
    }

    // Makes a new store of the format.
    fn make_store(&mut self, format: Format) -> Result<(), Trouble> {
        let disk = MemoryDisk::new(self.alloc, DEVICE_BYTES)?;
        let Err(Unopened::Blank(blank)) = Journal::find(self.alloc, disk) else {
            return Err(Trouble::Disk);
        };
        match Journal::format_in(self.alloc, format, blank) {
            Ok(journal) => {
                self.disk = journal.into_disk();
                Ok(())
            }
            Err((_, disk)) => {
                drop(disk);
                Err(Trouble::Disk)
            }
        }
    }

    fn write(&mut self, rest: &str) -> Result<(), Trouble> {
        let (at, spelled) = first_number(rest)?;
        let bytes = self.names.bytes_of(spelled)?;
        disks::write(&mut self.disk, at as usize, bytes.as_slice())
    }

    /// The calls, with the current bytes of their names.
    pub fn acts(&self) -> Result<Vec<Act>, Trouble> {
        let mut acts = Vec::new(self.alloc);
        for line in self.calls.iter() {
            acts.push(self.act(line.as_str())?)?;
        }
        Ok(acts)
    }

    fn act(&self, line: &str) -> Result<Act, Trouble> {
        match self.level {
            Level::Desk => taking(self.alloc, &self.names, line),
            _ => act_of(self.alloc, &self.names, line),
        }
    }

    /// A copy of the disk.
    pub fn copy(&self) -> Result<MemoryDisk, Trouble> {
        Ok(self.disk.stopped(Torn::Kept)?)
    }

    /// What is found on the disk. It is empty if that is a fault, and for calls of a disk.
    pub fn start(&self) -> Result<Vec<u8>, Trouble> {
        if self.level == Level::Disk {
            return Ok(Vec::new(self.alloc));
        }
        let (disk, found) = self.level.found(self.alloc, self.copy()?);
        drop(disk);
        match found {
            Ok(image) => Ok(image),
            Err(_) => Ok(Vec::new(self.alloc)),
        }
    }

    /// The calls on the disk, as a trial.
    pub fn trial<'a>(&'a self, acts: &'a [Act], start: &'a [u8]) -> Trial<'a> {
        Trial {
            alloc: self.alloc,
            level: self.level,
            store: &self.disk,
            acts,
            start,
        }
    }

    /// Makes the calls on a copy of the disk that stops after this many device calls, or that fails only the
    /// call after this many.
    pub fn ran(&self, fails_once: bool, calls: u64) -> Result<Run, Trouble> {
        let acts = self.acts()?;
        let start = self.start()?;
        let trial = self.trial(acts.as_slice(), start.as_slice());
        if fails_once {
            trial.failing(calls)
        } else {
            trial.fused(calls)
        }
    }
}
