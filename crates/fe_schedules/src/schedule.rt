//! Running a schedule (`docs/schedules.md`).

ghost use Rattle.std.specs.Prelude.{◌≡◌, ◌<◌, [], length, string_bytes, IfErr, OnOk};
ghost use Rattle.fe_schedules.specs.Schedule.{RunsAll, RunsUntil, ReaderFails, TellsDiskOrWriter};
ghost use Rattle.fe_schedules.specs.Runs.{SoFar, last_disk};
ghost use Rattle.fe_schedules.specs.Ready.{IsNewDisk};

use crate::fault::ScheduleFault;
use crate::run::Run;
use fe_disk::MemoryDisk;
use fe_text::{PIECE, READS, Sink, Source, buffer};
use std::alloc::Global;

/// Makes a new store on a new disk, runs the lines of the reader, and prints their replies to the writer.
/// What the lines of one read print is written before the next read.
///
/// `Line` is the number of the first line outside the syntax, counted from 1; empty lines count, and do
/// nothing. `Input` means that the reader or the writer failed, or 2^40 reads or 2^40 writes of one text were
/// made. At a fault, what earlier lines print is written, unless the writer failed. The disk is returned:
/// after `Ok` with all that was stored, after a fault to show whether the device failed.
pub fn run_schedule<R: Source, W: Sink>(
    alloc: Global,
    disk: MemoryDisk,
    reader: &mut R,
    writer: &mut W,
) -> (Result<(), ScheduleFault>, MemoryDisk)
    requires fresh { IsNewDisk disk }
    // Every line of the input ran, what is written is what they print, and it is handed on.
    // A stop leaves all that they stored on the disk.
    ensures ok { OnOk result.0
        (RunsAll (R.remaining reader.old) (W.contents writer.old) (W.contents writer.new) result.1) }
    ensures handed { OnOk result.0 (W.is_handed_on writer.new) }
    // At a fault lines at the front of the input ran. The fault is what ended them, and what they print is
    // written, unless the writer failed.
    ensures fault { IfErr result.0
        (λ end. RunsUntil (ReaderFails R.has_failed R.was_read reader.old reader.new)
        (W.has_failed writer.new)
        (reader.new ≡ reader.old) end (R.remaining reader.old) (W.contents writer.old)
        (W.contents writer.new)) }
    // The fault is `Device` exactly if a call of the disk failed, or it is that of the writer, which failed.
    ensures disk { IfErr result.0 (TellsDiskOrWriter result.1 (W.has_failed writer.new)) }
{
    let mut piece = match buffer(alloc, PIECE) {
        Ok(piece) => piece,
        Err(fault) => return (Err(ScheduleFault::from(fault)), disk),
    };
    let mut run = match Run::new(alloc, disk) {
        Ok(run) => run,
        Err((fault, disk)) => return (Err(ScheduleFault::from(fault)), disk),
    };
    let ended = run_all(&mut run, piece.as_mut_slice(), reader, writer);
    drop(piece);
    (ended, run.into_disk())
}

/// Runs the lines that the reader gives to its end.
fn run_all<R: Source, W: Sink>(
    run: &mut Run,
    piece: &mut [u8],
    reader: &mut R,
    writer: &mut W,
) -> Result<(), ScheduleFault>
    requires begins { SoFar [] (W.contents writer.old) (W.contents writer.old) run.old }
    requires none_kept { string_bytes run.old.text ≡ [] }
    requires room { 0 < length piece.old }
    ensures ok { OnOk result
        (RunsAll (R.remaining reader.old) (W.contents writer.old) (W.contents writer.new)
        (last_disk run.new.machine)) }
    ensures handed { OnOk result (W.is_handed_on writer.new) }
    ensures disk { IfErr result (TellsDiskOrWriter (last_disk run.new.machine) (W.has_failed writer.new)) }
    ensures fault { IfErr result
        (λ end. RunsUntil (ReaderFails R.has_failed R.was_read reader.old reader.new)
        (W.has_failed writer.new)
        (reader.new ≡ reader.old) end (R.remaining reader.old) (W.contents writer.old)
        (W.contents writer.new)) }
{
    for turn in 0..READS {
        match reader.read_piece(piece)? {
            Some(0) => return run.finish(writer),
            Some(count) => run.take_piece(&piece[..count], writer)?,
            None => {}
        }
    }
    Err(ScheduleFault::Input)
}
