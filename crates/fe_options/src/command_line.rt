//! The command line: the commands of the program, and their options (`docs/commands.md`, "Commands").

ghost use Rattle.std.specs.Prelude.{◌≡◌, ◌⊎◌, codes, false, map, is_some, IfSome, IfOk, IfErr, Ok};
ghost use Rattle.std.specs.Prelude.{option_map};
ghost use Rattle.clap.specs.Words.{AddsSubcommand, HasKind, app_of, fault_of, first_of, found_of, kind_of};
ghost use Rattle.clap.specs.Words.{rows_of, subcommand_of, subcommand_rows_of};
ghost use Rattle.clap.specs.declared.builder.command.Command.{Command};
ghost use Rattle.clap.specs.declared.builder.command.Command.TheViews.{out-Command as fields_of};
ghost use Rattle.fe_options.specs.CommandLine.{femem, program_with_run, with_option, IsCommand, IsAsked};
ghost use Rattle.fe_options.specs.CommandLine.{is_complete, is_asked};

use clap::error::ErrorKind;
use clap::{Arg, ArgMatches, Command, Error};
use std::alloc::{AllocError, Global};
use std::convert::AsStr;

/// The version that `femem --version` prints.
const VERSION: &str = "1.2.0~git";

/// What the help says about each command.
const RUN: &str = "Runs a schedule from standard input";

const SERVE: &str = "Serves clients at a socket";

/// What the help of `serve` says at its end.
const AFTER_SERVE: &str = "The settings are a TOML file with these keys:
  socket       the path of the Unix socket to make
  store        the path of the store's file
  connections  how many connections are served at once, 1 to 256 [default: 64]
  format       whether to make a store that is missing [default: false]
  accepts      after how many connections to end, 0 for never [default: 0]
  turns        after how many reads a connection ends [default: 1000000000]

Exit status:
  0  no fault
  2  the command line, the settings, or standard input or output
  3  the store, memory, or the server's own checks
  4  the socket";

const CALL: &str = "Sends lines from standard input to a server";

const LOOK: &str = "Shows what is in a store";

/// What a command line asks for.
#[derive(Clone, Copy, PartialEq, Eq)]
pub enum Invocation<'a> {
    /// Run a schedule, lines of many clients (`docs/schedules.md`), from standard input.
    Run,
    /// Serve with the settings in this file.
    Serve { settings: &'a str },
    /// Send the lines of standard input to the server at this socket.
    Call { socket: &'a str },
    /// Show what is in the store in this file.
    Look { store: &'a str },
}

/// A command with one required option.
fn with_option<'a>(
    alloc: Global,
    name: &'a str,
    about: &'a str,
    option: &'a str,
    value: &'a str,
    help: &'a str,
) -> Result<Command<'a>, AllocError>
    ensures app { IfOk result (λ command. app_of command ≡ with_option name.entry.now option.entry.now) }
    ensures local { IfOk result (λ command. (fields_of command).has_globals ≡ false) }
{
    let option = Arg::new(alloc, option)
        .long(option)
        .value_name(value)
        .help(help)
        .required(true);
    Command::new(alloc, name).about(about).arg(option)
}

/// The command `serve`, whose help names the settings and the statuses.
fn serving<'a>(alloc: Global) -> Result<Command<'a>, AllocError>
    ensures app { IfOk result (λ command. app_of command ≡ with_option (codes "serve") (codes "settings")) }
    ensures local { IfOk result (λ command. (fields_of command).has_globals ≡ false) }
{
    let command = with_option(alloc, "serve", SERVE, "settings", "FILE", "The settings")?;
    Ok(command.after_help(AFTER_SERVE))
}

/// A program with one more command.
fn with<'a>(
    program: Command<'a>,
    command: Result<Command<'a>, AllocError>,
) -> Result<Command<'a>, AllocError>
    ensures { IfOk result (λ more. (added : Command) × (command.entry ≡ Ok added)
        × AddsSubcommand program.entry added more) }
{
    match command {
        Ok(command) => program.subcommand(command),
        Err(short) => {
            drop(program);
            Err(short)
        }
    }
}

/// The program with `run`, its only command without an option.
fn program_with_run<'a>(alloc: Global) -> Result<Command<'a>, AllocError>
    ensures { IfOk result (λ command. app_of command ≡ program_with_run) }
{
    let program = Command::new(alloc, "femem")
        .about("A recoverable server of full/empty memory")
        .version(VERSION)
        .subcommand_required(true);
    program.subcommand(Command::new(alloc, "run").about(RUN))
}

/// The commands of the program.
fn commands<'a>(alloc: Global) -> Result<Command<'a>, AllocError>
    ensures { IfOk result (λ command. app_of command ≡ femem) }
{
    let with_run = program_with_run(alloc)?;
    let with_serve = with(with_run, serving(alloc))?;
    let call = with_option(
        alloc,
        "call",
        CALL,
        "socket",
        "PATH",
        "The socket of the server",
    );
    let with_call = with(with_serve, call)?;
    let look = with_option(
        alloc,
        "look",
        LOOK,
        "store",
        "PATH",
        "The file of the store",
    );
    with(with_call, look)
}

/// An error of the program's command line.
fn error_of(alloc: Global, kind: ErrorKind, text: &str) -> Result<Error, AllocError>
    ensures { IfOk result (λ error. kind_of error ≡ kind) }
{
    let mut program = commands(alloc)?;
    let error = program.error(kind, text);
    drop(program);
    error
}

/// The value given for an option.
fn value_of<'a>(found: &ArgMatches<'a>, option: &str) -> Option<&'a str>
    ensures { option_map (λ value. value.now) result ≡ first_of option.now (rows_of (found_of found.now)) }
{
    found.get_str(option)
}

/// What the command with this name and these option values asks for.
fn asked<'a>(name: &str, found: &ArgMatches<'a>) -> Option<Invocation<'a>>
    ensures some { IfSome result (λ asked. IsCommand asked name.now (rows_of (found_of found.now))) }
    ensures complete { is_some result ≡ is_complete name.now (rows_of (found_of found.now)) }
{
    if name == "run" {
        Some(Invocation::Run)
    } else if name == "serve" {
        let settings = value_of(found, "settings")?;
        Some(Invocation::Serve { settings })
    } else if name == "call" {
        let socket = value_of(found, "socket")?;
        Some(Invocation::Call { socket })
    } else if name == "look" {
        let store = value_of(found, "store")?;
        Some(Invocation::Look { store })
    } else {
        None
    }
}

/// What the matches ask for.
fn asked_by<'a>(matches: &ArgMatches<'a>) -> Option<Invocation<'a>>
    ensures some { IfSome result (λ asked. IsAsked asked (subcommand_rows_of matches.now)) }
    ensures complete { is_some result ≡ is_asked (subcommand_rows_of matches.now) }
{
    let (name, found) = matches.subcommand()?;
    asked(name, found)
}

/// What a command line asks for; its first word is the program's name. The error says what is wrong with the
/// words, or contains the help or the version that was asked for, or says that memory ran out.
pub fn arguments<'a, S: AsStr>(alloc: Global, words: &'a [S]) -> Result<Invocation<'a>, Error>
    // It is the command that `clap` finds in the words, with the value of its option.
    ensures asked { IfOk result (λ asked. IsAsked asked (subcommand_of femem (map S.text words.entry.now))) }
    // An error has a kind that `clap` finds in the words, or says that memory ran out. So words that it
    // accepts ask for a command.
    ensures refused { IfErr result (HasKind (fault_of femem (map S.text words.entry.now))) }
{
    let program = commands(alloc)?;
    let matches = program.try_get_matches_from(words)?;
    let asked = asked_by(&matches);
    drop(matches);
    match asked {
        Some(asked) => Ok(asked),
        None => unreachable!(),
    }
}

/// The error for a command line that is not UTF-8, or for a lack of memory.
pub fn not_text(alloc: Global) -> Error
    ensures { (kind_of result ≡ ErrorKind.InvalidValue) ⊎ (kind_of result ≡ ErrorKind.OutOfMemory) }
{
    let complaint = "invalid UTF-8 was detected in one or more arguments";
    match error_of(alloc, ErrorKind::InvalidValue, complaint) {
        Ok(error) => error,
        Err(short) => Error::from(short),
    }
}
