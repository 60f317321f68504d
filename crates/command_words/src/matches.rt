//! What clap finds in the arguments. No public clause cites this module.
ghost use Rattle.std.specs.Prelude.{◌≡◌, IfOk, drop, map, string_bytes};
ghost use Rattle.clap.specs.Words.{app_of};
ghost use Rattle.command_words.specs.Commands.{app_for, AreShown};
ghost use Rattle.command_words.specs.Words.{nothing_said, said_after};

use clap::error::ErrorKind;
use clap::{Arg, ArgAction, ArgMatches, Command};
use std::alloc::{AllocError, Global};

/// The id of the arguments that are not options.
pub(crate) const PLAIN: &str = "plain";
/// The option for the number of workers.
pub(crate) const WORKERS: &str = "workers";
/// The option for reporting the numbers of searches.
pub(crate) const COUNT: &str = "count";

/// A clap command without help and version. It keeps each value of `--workers`, since the
/// subcommand decides how many are allowed.
fn command<'a>(alloc: Global, name: &'a str, has_options: bool) -> Result<Command<'a>, AllocError>
    ensures { IfOk result (λ command. app_of command ≡ app_for has_options name.entry.now) }
{
    let plain = Arg::new(alloc, PLAIN).action(ArgAction::Append);
    let bare = Command::new(alloc, name)
        .disable_help_flag(true)
        .arg(plain)?;
    if !has_options {
        return Ok(bare);
    }
    let workers = Arg::new(alloc, WORKERS)
        .long(WORKERS)
        .action(ArgAction::Append);
    let count = Arg::new(alloc, COUNT)
        .long(COUNT)
        .action(ArgAction::SetTrue);
    bare.arg(workers)?.arg(count)
}

/// What clap finds in the arguments after the first, or `None` if it refuses them.
pub(crate) fn matches_of<'a>(
    alloc: Global,
    name: &'a str,
    has_options: bool,
    words: &'a [String],
) -> Result<Option<ArgMatches<'a>>, AllocError>
    ensures { IfOk result (AreShown has_options
        (said_after has_options nothing_said (drop 1 (map string_bytes words.entry.now)))) }
{
    match command(alloc, name, has_options)?.try_get_matches_from(words) {
        Ok(matches) => Ok(Some(matches)),
        Err(error) => match error.kind() {
            ErrorKind::OutOfMemory => Err(AllocError),
            _ => Ok(None),
        },
    }
}
