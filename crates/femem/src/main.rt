//! The program `femem`: `run` runs a schedule from standard input, `serve` serves a store at a socket, `call`
//! sends lines from standard input to a server, and `look` shows what is in a store (`docs/commands.md`,
//! "Commands").
#![tactic(auto)]

ghost use Rattle.std.specs.Prelude.{◌≡◌, ◌⊎◌, ℕ, take, is_ok, IfOk, IfErr, OnOk};
ghost use Rattle.std.specs.Io.KnownBytes.{Appends};
ghost use Rattle.fe_memory.specs.Memory.{out_of_memory};
ghost use Rattle.clap.specs.Words.{kind_of};
ghost use Rattle.fe_disk.specs.Memory.{MemoryState};
ghost use Rattle.fe_schedules.specs.Schedule.{RunsAll, RunsUntil, ReaderFails};
ghost use Rattle.fe_schedules.specs.declared.fault.ScheduleFault.{ScheduleFault};
ghost use Rattle.fe_server.specs.BooksText.{books_text};
ghost use Rattle.femem.specs.within.Faults.{status_of, of_schedule, AreSettings, RefusesFile, WritesBooks};
ghost use Rattle.femem.specs.within.Faults.{WritesBooksOf, IsFaultOf, FailsServing, command_status};
ghost use Rattle.femem.specs.within.Faults.{words_status, shown_status, IsWordsStatus};

mod fault;

use crate::fault::Fault;
use clap::Error;
use clap::error::ErrorKind;
use fe_client::{SocketConnection, call};
use fe_disk::{Disk, FileDisk, MemoryDisk, StoreFile, SystemFile};
use fe_front::Books;
use fe_hall::Open;
use fe_look::look;
use fe_options::{Invocation, Settings, arguments, not_text, read_settings};
use fe_schedules::{DEVICE_BYTES, run_schedule};
use fe_server::{Failed, ServeFault, Served, books_text, serve};
use fe_text::{CountedReader, CountedWriter, Sink, Source, StreamFault};
use libc::net as c;
use std::alloc::Global;
use std::fs::File;
use std::net::Net;
use std::process::ExitCode;
use std::rt::{Env, Files, Runtime};
use std::sync::Wait;
use std::thread::Threads;
use std::time::Clock;
use std::{fs, io};

/// The exit status for a wrong command line.
const USAGE: u8 = 2;

/// The exit status if memory runs out.
const SHORT: u8 = 3;

/// The descriptor of standard error, the last of the three standard streams.
const STANDARD_ERROR: i32 = 2;

/// Replaces each closed standard stream by an unconnected socket, so that every read and write of it fails.
/// Otherwise the next file or socket would get that descriptor, and a server, for one, would receive what
/// `femem call` writes to standard output.
fn hold_closed_streams() {
    for _stream in 0..=STANDARD_ERROR {
        let fd = unsafe { c::socket(c::AF_UNIX, c::SOCK_STREAM | c::SOCK_CLOEXEC, 0) };
        if fd > STANDARD_ERROR {
            libc::close(fd);
            return;
        }
    }
}

/// The words of the command line. The error says that they are not UTF-8, or that memory ran out.
fn words<R: Env + AllocGlobal>(rt: &R) -> Result<Vec<String>, Error> {
    match std::env::args(rt) {
        Ok(args) => Ok(args.collect::<Vec<String>>(rt.alloc())?),
        Err(error) if error.kind() == io::ErrorKind::InvalidData => Err(not_text(rt.alloc())),
        Err(_) => Err(Error::from(std::alloc::AllocError)),
    }
}

/// Does what the command line asks for.
fn start<R: Runtime + Files<File = File> + Net + Threads + Wait + Sync + AllocGlobal>(
    rt: &R,
    asked: Invocation<'_>,
) -> Result<(), Fault> {
    match asked {
        Invocation::Run => {
            let mut reader = CountedReader::new(rt.reader());
            let mut writer = CountedWriter::new(io::writer(rt));
            run_by(rt.alloc(), &mut reader, &mut writer)?;
        }
        Invocation::Look { store } => {
            let mut writer = CountedWriter::new(io::writer(rt));
            look::<SystemFile, R, _>(rt, rt.alloc(), store, &mut writer)?;
        }
        Invocation::Serve { settings } => {
            let mut writer = CountedWriter::new(io::writer(rt));
            serve_by::<SystemFile, R, _>(rt, settings, &mut writer)?;
        }
        Invocation::Call { socket } => {
            let mut reader = CountedReader::new(rt.reader());
            let mut writer = CountedWriter::new(io::writer(rt));
            call::<SocketConnection, R, _, _>(rt, rt.alloc(), socket, &mut reader, &mut writer)?;
        }
    }
    Ok(())
}

/// Runs the schedule from the reader, on a disk in memory.
fn run_by<R: Source, W: Sink>(alloc: Global, reader: &mut R, writer: &mut W) -> Result<(), Fault>
    ensures ok { OnOk result ((disk : MemoryState)
        × RunsAll (R.remaining reader.old) (W.contents writer.old) (W.contents writer.new) disk) }
    ensures flushed { OnOk result (W.is_handed_on writer.new) }
    // The fault and its line are those of the schedule: the first lines of the input ran, and what the fault
    // says ended them. Or there was no memory for the disk, and nothing was read or written.
    ensures fault { IfErr result (λ fault. ((fault ≡ Fault.Memory) × (reader.new ≡ reader.old)
        × (writer.new ≡ writer.old))
        ⊎ ((end : ScheduleFault) × (fault ≡ of_schedule end)
        × RunsUntil (ReaderFails R.has_failed R.was_read reader.old reader.new) (W.has_failed writer.new)
        (reader.new ≡ reader.old) end (R.remaining reader.old) (W.contents writer.old)
        (W.contents writer.new))) }
{
    let Ok(disk) = MemoryDisk::new(alloc, DEVICE_BYTES) else {
        return Err(Fault::Memory);
    };
    let (ended, disk) = run_schedule(alloc, disk, reader, writer);
    drop(disk);
    match ended {
        Ok(()) => Ok(()),
        Err(fault) => Err(Fault::from(fault)),
    }
}

/// Serves with the settings in a file, and writes the books, the counts of calls and mails, once the server
/// has ended without a fault.
fn serve_by<
    F: StoreFile + Drop + Send,
    R: Files<File = File> + Net + Clock + Threads + Wait + Sync + AllocGlobal,
    W: Sink,
>(rt: &R, path: &str, writer: &mut W) -> Result<(), Fault>
    ensures books { OnOk result (WritesBooks ⟦<FileDisk<F> as Disk>⟧ F.is_at
        (W.contents writer.old) (W.contents writer.new)) }
    // The fault is the one that there was: the settings were refused, and nothing was written; or it is that
    // of serving the store that they name.
    ensures fault { IfErr result (λ end. (RefusesFile end × (writer.new ≡ writer.old))
        ⊎ FailsServing ⟦<FileDisk<F> as Disk>⟧ F.is_at
        (W.has_failed writer.new) (W.contents writer.old) (W.contents writer.new) end) }
{
    let settings = settings_at(rt, path)?;
    let ended = serve::<F, R, Open>(rt, rt.alloc(), &settings, &Open);
    finish_serving(rt.alloc(), ended, writer)
}

/// Writes the books of a server that ended without a fault. After any other end, gives its fault.
fn finish_serving<D: Disk + Drop, W: Sink>(
    alloc: Global,
    ended: Result<Result<Served<D>, Failed<D>>, ServeFault<D>>,
    writer: &mut W,
) -> Result<(), Fault>
    ensures books { OnOk result (WritesBooksOf ended (W.contents writer.old) (W.contents writer.new)) }
    ensures fault { IfErr result (IsFaultOf (W.has_failed writer.new)
        (W.contents writer.old) (W.contents writer.new) ended) }
{
    match ended {
        Ok(Ok(served)) => {
            let books = served.audit.books();
            drop(served);
            match show_books(alloc, &books, writer) {
                Ok(()) => Ok(()),
                Err(fault) => Err(Fault::from(fault)),
            }
        }
        Ok(Err(failed)) => Err(Fault::from(failed.fault)),
        Err(why) => Err(Fault::from(why)),
    }
}

/// The settings in a file.
fn settings_at<R: Files + AllocGlobal>(rt: &R, path: &str) -> Result<Settings, Fault>
    ensures settings { IfOk result AreSettings }
    ensures refused { IfErr result RefusesFile }
{
    match fs::read_to_string(rt, path) {
        Ok(text) => Ok(read_settings(rt.alloc(), text.as_str())?),
        Err(error) if error.kind() == io::ErrorKind::OutOfMemory => Err(Fault::Memory),
        Err(_) => Err(Fault::Unreadable),
    }
}

/// Writes the books. If the writer fails, a prefix of their text is written.
fn show_books<W: Sink>(alloc: Global, books: &Books, writer: &mut W) -> Result<(), StreamFault>
    ensures ok { OnOk result (Appends (W.contents writer.old) (W.contents writer.new)
        (books_text books.now)) }
    ensures front { (count : ℕ)
        × Appends (W.contents writer.old) (W.contents writer.new) (take count (books_text books.now)) }
    ensures fails { IfErr result (λ fault. (fault ≡ StreamFault.Memory out_of_memory)
        ⊎ W.has_failed writer.new fault) }
{
    match books_text(alloc, books) {
        Ok(mut text) => match writer.write_whole(&mut text) {
            Ok(()) => Ok(()),
            Err(fault) => Err(fault),
        },
        Err(error) => Err(StreamFault::Memory(error)),
    }
}

/// The exit status of a command, after printing its fault on standard error.
fn ended_with(rt: &impl Eprint, ended: Result<(), Fault>) -> u8
    ensures { result ≡ command_status ended }
{
    match ended {
        Ok(()) => 0,
        Err(fault) => end(rt, fault),
    }
}

/// Prints a fault on standard error, and returns its exit status.
fn end(rt: &impl Eprint, fault: Fault) -> u8
    ensures { result ≡ status_of fault }
{
    let _ = rt.eprintln(fault);
    fault.status()
}

/// Prints the help or the version that was asked for, or what is wrong with the words on standard error, and
/// returns the exit status.
fn refuse(rt: &(impl Print + Eprint), error: &Error) -> u8
    ensures { IsWordsStatus (kind_of error.now) result }
{
    if error.kind() == ErrorKind::OutOfMemory {
        return end(rt, Fault::Memory);
    }
    let shown = error.print(rt);
    shown_with(rt, error.kind(), shown)
}

/// The exit status after printing help or an error about the words. Help that can't be written is a fault.
fn shown_with(rt: &impl Eprint, kind: ErrorKind, shown: io::Result<()>) -> u8
    ensures { result ≡ shown_status kind (is_ok shown) }
{
    let status = status_of_words(kind);
    if status == 0 && shown.is_err() {
        return end(rt, Fault::Input);
    }
    status
}

/// The exit status if the words don't ask for a command.
fn status_of_words(kind: ErrorKind) -> u8
    ensures { result ≡ words_status kind }
{
    match kind {
        ErrorKind::DisplayHelp | ErrorKind::DisplayVersion => 0,
        ErrorKind::OutOfMemory => SHORT,
        _ => USAGE,
    }
}

fn main(rt: HostRuntime) -> ExitCode {
    hold_closed_streams();
    let words = match words(&rt) {
        Ok(words) => words,
        Err(error) => return ExitCode::from(refuse(&rt, &error)),
    };
    match arguments(rt.alloc(), words.as_slice()) {
        Ok(asked) => ExitCode::from(ended_with(&rt, start(&rt, asked))),
        Err(error) => ExitCode::from(refuse(&rt, &error)),
    }
}
