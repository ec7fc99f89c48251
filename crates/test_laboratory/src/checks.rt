//! The lines of a script that check something.

use crate::bench::{Bench, DEVICE_BYTES, format_of};
use crate::disks;
use crate::images::{again, image_fault};
use crate::keepers::opened;
use crate::lies::Lie;
use crate::made::outcome_text;
use crate::trial::{Run, Stops, TORN};
use crate::trouble::Trouble;
use crate::words::{byte_of, first_number, first_word, torn_of};
use fe_disk::{MemoryDisk, Torn};
use std::alloc::Global;

/// The result of a line.
#[derive(Drop)]
pub enum Verdict {
    /// It checks nothing.
    Done,
    /// The check passed.
    Good,
    /// The check failed; this was found.
    Wrong(String),
}

fn compared_text(found: String, wanted: &str) -> Verdict {
    if found.as_str() == wanted {
        return Verdict::Good;
    }
    Verdict::Wrong(found)
}

// Compares the bytes with the expected ones.
fn compared(alloc: Global, found: &[u8], wanted: &[u8]) -> Result<Verdict, Trouble> {
    if found == wanted {
        return Ok(Verdict::Good);
    }
    let count = found.len();
    let same = found
        .iter()
        .zip(wanted.iter())
        .take_while(|pair| pair.0 == pair.1)
        .count();
    let text = format!(in alloc; "{count} bytes, the first {same} as wanted")?;
    Ok(Verdict::Wrong(text))
}

fn truth(alloc: Global, is_so: bool) -> Result<Verdict, Trouble> {
    if is_so {
        return Ok(Verdict::Good);
    }
    Ok(Verdict::Wrong(String::from_str(alloc, "no")?))
}

// Compares how many calls were stopped or failed, or the first after which something was wrong, with the
// expected text.
fn swept(alloc: Global, told: Result<u64, u64>, wanted: &str) -> Result<Verdict, Trouble> {
    let found = match told {
        Ok(calls) => format!(in alloc; "{calls}")?,
        Err(calls) => format!(in alloc; "wrong behind {calls}")?,
    };
    Ok(compared_text(found, wanted))
}

// Whether the text has this many lines and begins and ends with these.
fn is_report(text: &[u8], lines: u64, first: &[u8], last: &[u8]) -> bool {
    let found = text.iter().filter(|byte| **byte == b'\n').count();
    found as u64 == lines && text.starts_with(first) && text.ends_with(last)
}

impl Bench {
    /// Carries out a line.
    pub fn obey(&mut self, line: &str) -> Result<Verdict, Trouble> {
        let (word, rest) = first_word(line);
        match word {
            "let" | "disk" | "store" | "write" | "calls" | "-" => {
                self.set(word, rest)?;
                Ok(Verdict::Done)
            }
            "run" | "try" | "burn" | "once" => self.run(word, rest),
            "fuse" | "fail" | "twice" | "formats" => self.sweep(word, rest),
            "stop" => self.stop(rest),
            "lie" => self.lie(rest),
            "told" | "counts" | "groups" | "written" | "report" => self.look(word, rest),
            _ => self.find(word, rest),
        }
    }

    // `run`, `try`, `burn CALLS` and `once CALLS`, with how the calls should end. A `try` leaves the disk
    // unchanged.
    fn run(&mut self, word: &str, rest: &str) -> Result<Verdict, Trouble> {
        let (calls, wanted) = match word {
            "burn" | "once" => first_number(rest)?,
            _ => (u64::MAX, rest),
        };
        let Run {
            disk,
            made,
            counts,
            ..
        } = self.ran(word == "once", calls)?;
        if word == "try" {
            drop(disk);
        } else {
            self.disk = disk;
        }
        let found = outcome_text(self.alloc, &made);
        self.made = made;
        self.counts = counts;
        Ok(compared_text(found?, wanted))
    }

    // `fuse CALLS`, `fail CALLS`, `twice CALLS` and `formats CALLS`.
    fn sweep(&self, word: &str, wanted: &str) -> Result<Verdict, Trouble> {
        let acts = self.acts()?;
        let start = self.start()?;
        let trial = self.trial(acts.as_slice(), start.as_slice());
        let told = match word {
            "fuse" => trial.fuse_each(Stops::Each),
            "fail" => trial.fail_once_each(),
            "twice" => trial.fuse_twice(),
            _ => trial.format_each(),
        };
        swept(self.alloc, told?, wanted)
    }

    // `stop FROM TO TORN BYTES`: what is found after a stop of this kind, or of `any`, after FROM to TO
    // device calls.
    fn stop(&self, rest: &str) -> Result<Verdict, Trouble> {
        let (from, rest) = first_number(rest)?;
        let (to, rest) = first_number(rest)?;
        let (word, spelled) = first_word(rest);
        let wanted = self.names.bytes_of(spelled)?;
        for calls in from..=to {
            let run = self.ran(false, calls)?;
            let is_left = self.is_left(&run.disk, word, wanted.as_slice());
            drop(run);
            if !is_left? {
                return swept(self.alloc, Err(calls), "");
            }
        }
        Ok(Verdict::Good)
    }

    fn is_left(&self, disk: &MemoryDisk, word: &str, wanted: &[u8]) -> Result<bool, Trouble> {
        if word != "any" {
            return self.leaves(disk, torn_of(word)?, wanted);
        }
        for torn in TORN {
            if !self.leaves(disk, torn, wanted)? {
                return Ok(false);
            }
        }
        Ok(true)
    }

    fn leaves(&self, disk: &MemoryDisk, torn: Torn, wanted: &[u8]) -> Result<bool, Trouble> {
        match self.trial(&[], &[]).left(disk, torn)? {
            Ok(found) => Ok(found.as_slice() == wanted),
            Err(_) => Ok(false),
        }
    }

    // The image in `other BYTES`; empty for other words.
    fn other(&self, wanted: &str) -> Result<Vec<u8>, Trouble> {
        match first_word(wanted) {
            ("other", spelled) => self.names.bytes_of(spelled),
            _ => Ok(Vec::new(self.alloc)),
        }
    }

    // `lie PLACE COUNT CHANGE WANTED`, for each of this many bytes.
    fn lie(&self, rest: &str) -> Result<Verdict, Trouble> {
        let (at, rest) = first_number(rest)?;
        let (count, rest) = first_number(rest)?;
        let (change, wanted) = first_word(rest);
        let change = byte_of(change.as_bytes())?;
        let acts = self.acts()?;
        let start = self.start()?;
        let bytes = self.device_bytes()?;
        let other = self.other(wanted)?;
        let lie = Lie {
            alloc: self.alloc,
            level: self.level,
            bytes: bytes.as_slice(),
            acts: acts.as_slice(),
            start: start.as_slice(),
            other: other.as_slice(),
        };
        for k in 0..count {
            let place = at.saturating_add(k);
            if !lie.is_as(place as usize, change, wanted)? {
                return swept(self.alloc, Err(place), "");
            }
        }
        Ok(Verdict::Good)
    }

    fn device_bytes(&self) -> Result<Vec<u8>, Trouble> {
        let mut disk = self.copy()?;
        let bytes = disks::read(self.alloc, &mut disk, 0, DEVICE_BYTES);
        drop(disk);
        bytes
    }

    // The result of the last calls: `told ENDS`, `counts READS WRITES SYNCS`, `groups COUNTS`,
    // `written CONNECTION BYTES`, or `report CONNECTION PLACE LINES BYTES`.
    fn look(&self, word: &str, rest: &str) -> Result<Verdict, Trouble> {
        let alloc = self.alloc;
        match word {
            "told" => truth(alloc, self.made.told.as_str() == rest),
            "counts" => {
                let counts = self.counts;
                let (reads, writes, syncs) = (counts.reads, counts.writes, counts.syncs);
                let found = format!(in alloc; "{reads} {writes} {syncs}")?;
                Ok(compared_text(found, rest))
            }
            "groups" => truth(alloc, self.made.groups.as_str().trim() == rest),
            "written" => {
                let (conn, spelled) = first_number(rest)?;
                let wanted = self.names.bytes_of(spelled)?;
                compared(alloc, self.written_to(conn), wanted.as_slice())
            }
            _ => self.is_reported(rest),
        }
    }

    fn written_to(&self, conn: u64) -> &[u8] {
        for written in self.made.written.iter() {
            if written.conn == conn {
                return written.bytes.as_slice();
            }
        }
        &[]
    }

    // Whether what was written to the connection has this many lines from this offset on, begins there with
    // these bytes and ends with `$last_line`.
    fn is_reported(&self, rest: &str) -> Result<Verdict, Trouble> {
        let (conn, rest) = first_number(rest)?;
        let (at, rest) = first_number(rest)?;
        let (lines, spelled) = first_number(rest)?;
        let first = self.names.bytes_of(spelled)?;
        let last = self.names.bytes_of("$last_line")?;
        let text = self.written_to(conn).get(at as usize..).unwrap_or(&[]);
        let is_so = is_report(text, lines, first.as_slice(), last.as_slice());
        truth(self.alloc, is_so)
    }

    // What is on the disk: `holds TEXT`, `image BYTES`, `reads PLACE BYTES`, `left TORN BYTES`; or what an
    // image is: `again FORMAT BYTES`, `fault FORMAT OFFSET BYTES`.
    fn find(&mut self, word: &str, rest: &str) -> Result<Verdict, Trouble> {
        match word {
            "holds" => self.holds(rest),
            "image" => self.image(rest),
            "reads" => self.reads(rest),
            "left" => self.left(rest),
            "again" => {
                let (format, spelled) = first_word(rest);
                let bytes = self.names.bytes_of(spelled)?;
                truth(
                    self.alloc,
                    again(self.alloc, format_of(format)?, bytes.as_slice())?,
                )
            }
            "fault" => {
                let (format, rest) = first_word(rest);
                let (offset, spelled) = first_word(rest);
                let bytes = self.names.bytes_of(spelled)?;
                let found = image_fault(self.alloc, format_of(format)?, bytes.as_slice())?;
                Ok(compared_text(found, offset))
            }
            _ => Err(Trouble::Syntax),
        }
    }

    fn holds(&self, wanted: &str) -> Result<Verdict, Trouble> {
        let (disk, text) = opened(self.alloc, self.copy()?);
        drop(disk);
        Ok(compared_text(text?, wanted))
    }

    fn image(&self, spelled: &str) -> Result<Verdict, Trouble> {
        let wanted = self.names.bytes_of(spelled)?;
        let found = self.start()?;
        compared(self.alloc, found.as_slice(), wanted.as_slice())
    }

    fn reads(&mut self, rest: &str) -> Result<Verdict, Trouble> {
        let (at, spelled) = first_number(rest)?;
        let wanted = self.names.bytes_of(spelled)?;
        let found = disks::read(self.alloc, &mut self.disk, at as usize, wanted.len())?;
        compared(self.alloc, found.as_slice(), wanted.as_slice())
    }

    // The first bytes of the disk after a stop, and one more stop.
    fn left(&self, rest: &str) -> Result<Verdict, Trouble> {
        let (word, spelled) = first_word(rest);
        let wanted = self.names.bytes_of(spelled)?;
        let once = self.disk.stopped(torn_of(word)?)?;
        let twice = once.stopped(Torn::Byte(0x55));
        drop(once);
        let mut twice = twice?;
        let found = disks::read(self.alloc, &mut twice, 0, wanted.len());
        drop(twice);
        compared(self.alloc, found?.as_slice(), wanted.as_slice())
    }
}
