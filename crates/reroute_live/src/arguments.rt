//! The arguments of the program.
ghost use Rattle.std.specs.Prelude.{◌≤◌, IfOk};

use clap::error::{Error, ErrorKind};
use clap::{Arg, ArgAction, ArgMatches, Command, value_parser};
use report_text::Status;
use std::alloc::{AllocError, Global};
use std::{env, io};

/// What the arguments ask for.
#[derive(Drop)]
pub(crate) struct Asked {
    /// The name of the diagram, if one is given.
    pub(crate) file: Option<String>,
    /// How many searches are made side by side at most: 1 to 4.
    pub(crate) workers: u32,
}

const FILE: &str = "FILE";

const WORKERS: &str = "workers";

/// The command line, with help and version.
fn command<'a>(alloc: Global) -> Result<Command<'a>, AllocError> {
    let file = Arg::new(alloc, FILE)
        .help("The diagram in GML to begin with; without it, an empty one")
        .action(ArgAction::Set);
    let workers = Arg::new(alloc, WORKERS)
        .long(WORKERS)
        .value_name("N")
        .help("How many searches are made side by side at most, 1 to 4")
        .value_parser(value_parser!(u32).range(1..=4))
        .default_value("1")
        .action(ArgAction::Set);
    Command::new(alloc, "reroute_live")
        .version("0.1.0")
        .about(
            "Routes the edges of a diagram beside an editor, line by line over standard input and output",
        )
        .arg(file)?
        .arg(workers)
}

/// What the matches ask for.
fn read(alloc: Global, matches: &ArgMatches) -> Result<Asked, AllocError>
    ensures { IfOk result (λ a. (1 ≤ a.workers) × (a.workers ≤ 4)) }
{
    let file = match matches.get_str(FILE) {
        Some(name) => Some(String::from_str(alloc, name)?),
        None => None,
    };
    let workers = match matches.get_one::<u32>(WORKERS) {
        Some(number) if (1..=4).contains(&number) => number,
        _ => 1,
    };
    Ok(Asked { file, workers })
}

/// Prints why the arguments are not understood, or the help or the version, and answers the status.
fn reported(rt: &HostRuntime, error: &Error) -> Status {
    if error.kind() == ErrorKind::OutOfMemory {
        return Status::NoMemory;
    }
    let printed = error.print(rt);
    if error.use_stderr() {
        return Status::Words;
    }
    match printed {
        Ok(()) => Status::Done,
        Err(_) => Status::WriteFault,
    }
}

/// Prints why the arguments cannot be read, and answers the status.
fn unread(rt: &HostRuntime, error: &io::Error) -> Status {
    if error.kind() == io::ErrorKind::OutOfMemory {
        return Status::NoMemory;
    }
    // Where standard error is closed, the status alone reports the fault.
    let _printed = eprintln!(rt; "reroute_live: an argument is not UTF-8");
    Status::Words
}

/// What the arguments ask for, or the status where they ask for no session.
pub(crate) fn asked_for(rt: &HostRuntime, alloc: Global) -> Result<Asked, Status>
    ensures { IfOk result (λ a. (1 ≤ a.workers) × (a.workers ≤ 4)) }
{
    let arguments = env::args(rt).map_err(|error| unread(rt, &error))?;
    let Ok(words) = arguments.collect::<Vec<String>>(alloc) else {
        return Err(Status::NoMemory);
    };
    let Ok(command) = command(alloc) else {
        return Err(Status::NoMemory);
    };
    match command.try_get_matches_from(words.as_slice()) {
        Ok(matches) => read(alloc, &matches).map_err(|_| Status::NoMemory),
        Err(error) => Err(reported(rt, &error)),
    }
}
