//! The subcommands, read from the arguments.
ghost use Rattle.std.specs.Prelude.{◌≡◌, ◌&&◌, IfOk, [], drop, map, option_and_then, option_map, string_bytes, true, false};
ghost use Rattle.std.specs.Option.{option_map_or};
ghost use Rattle.clap.specs.Walk.{texts};
ghost use Rattle.command_words.specs.Views.{texts_of, view};
ghost use Rattle.command_words.specs.Words.{file_said, files_in, files_said, form_of, form_with, audit, make_form, names_file, nothing_said, preview_form, route_form, said_after, workers_said};

use crate::form::Form;
use crate::matches::{COUNT, PLAIN, WORKERS, matches_of};
use crate::values::{names_file, seed, worker_count};
use std::alloc::{AllocError, Global};

/// The file that the arguments of a subcommand without options name, if it is one.
fn one_file<'a>(
    alloc: Global,
    command: &'a str,
    words: &'a [String],
) -> Result<Option<&'a str>, AllocError>
    ensures { IfOk result (λ file. option_map (λ f. f.now) file ≡ file_said (drop 1 (map string_bytes words.entry.now))) }
{
    let Some(matches) = matches_of(alloc, command, false, words)? else {
        return Ok(None);
    };
    match matches.get_raw(PLAIN) {
        Some([file]) if names_file(file) => Ok(Some(*file)),
        _ => Ok(None),
    }
}

/// Whether both arguments name files.
fn name_files(first: &str, second: &str) -> bool
    ensures { result ≡ (names_file first.now && names_file second.now) }
{
    names_file(first) && names_file(second)
}

/// These files, if they are two.
fn pair<'a>(files: Option<&[&'a str]>) -> Option<(&'a str, &'a str)>
    ensures { option_map texts_of result ≡ files_in (option_map_or (λ v. texts v.now) files.entry []) }
{
    match files {
        Some([first, second]) if name_files(first, second) => Some((*first, *second)),
        _ => None,
    }
}

/// The two files that the arguments of a subcommand without options name, if they are two.
fn two_files<'a>(
    alloc: Global,
    command: &'a str,
    words: &'a [String],
) -> Result<Option<(&'a str, &'a str)>, AllocError>
    ensures { IfOk result (λ files. option_map texts_of files ≡ files_said (drop 1 (map string_bytes words.entry.now))) }
{
    let Some(found) = matches_of(alloc, command, false, words)? else {
        return Ok(None);
    };
    Ok(pair(found.get_raw(PLAIN)))
}

/// The number of workers that the values of `--workers` ask for.
fn workers(values: Option<&[&str]>) -> Option<u32>
    ensures { result ≡ workers_said (option_map_or (λ v. texts v.now) values.entry []) }
{
    match values {
        None | Some([]) => Some(1),
        Some([word]) => worker_count(word),
        Some(_) => None,
    }
}

/// A `route` of these files, if there are two.
fn route<'a>(files: Option<&[&'a str]>, count: bool, workers: u32) -> Option<Form<'a>>
    ensures { option_map view result ≡ route_form (option_map_or (λ v. texts v.now) files.entry []) count workers }
{
    let (diagram, script) = pair(files)?;
    Some(Form::Route {
        diagram,
        script,
        workers,
        count,
    })
}

/// The arguments of `route`: two files, with options.
fn route_words<'a>(alloc: Global, words: &'a [String]) -> Result<Option<Form<'a>>, AllocError>
    ensures { IfOk result (λ form. option_map view form ≡ form_with route_form (drop 1 (map string_bytes words.entry.now))) }
{
    let Some(matches) = matches_of(alloc, "route", true, words)? else {
        return Ok(None);
    };
    let Some(workers) = workers(matches.get_raw(WORKERS)) else {
        return Ok(None);
    };
    let count = matches.get_flag(COUNT);
    Ok(route(matches.get_raw(PLAIN), count, workers))
}

/// A preview with these files, if they are two, and if no numbers of searches are asked for.
#[tactic(auto, unfolding(crate::specs::Words::preview_form))]
fn preview<'a>(files: Option<&[&'a str]>, count: bool, workers: u32) -> Option<Form<'a>>
    ensures { option_map view result ≡ preview_form (option_map_or (λ v. texts v.now) files.entry []) count workers }
{
    if count {
        return None;
    }
    let (diagram, script) = pair(files)?;
    Some(Form::Preview {
        diagram,
        script,
        workers,
    })
}

/// `preview` and two files, with `--workers`.
fn preview_words<'a>(alloc: Global, words: &'a [String]) -> Result<Option<Form<'a>>, AllocError>
    ensures { IfOk result (λ form. option_map view form ≡ form_with preview_form (drop 1 (map string_bytes words.entry.now))) }
{
    let Some(matches) = matches_of(alloc, "preview", true, words)? else {
        return Ok(None);
    };
    let Some(workers) = workers(matches.get_raw(WORKERS)) else {
        return Ok(None);
    };
    let count = matches.get_flag(COUNT);
    Ok(preview(matches.get_raw(PLAIN), count, workers))
}

/// The argument of `make`: a seed.
fn make_words<'a>(alloc: Global, words: &'a [String]) -> Result<Option<Form<'a>>, AllocError>
    ensures { IfOk result (λ form. option_map view form ≡ option_and_then (λ said. make_form said.plain)
        (said_after false nothing_said (drop 1 (map string_bytes words.entry.now)))) }
{
    let Some(matches) = matches_of(alloc, "make", false, words)? else {
        return Ok(None);
    };
    match matches.get_raw(PLAIN) {
        Some([word]) => Ok(seed(word).map(|seed| Form::Make { seed })),
        _ => Ok(None),
    }
}

/// `audit` and two files.
fn audit_words<'a>(alloc: Global, words: &'a [String]) -> Result<Option<Form<'a>>, AllocError>
    ensures { IfOk result (λ form. option_map view form
        ≡ option_map (λ files. audit files.0 files.1) (files_said (drop 1 (map string_bytes words.entry.now)))) }
{
    let Some((diagram, certificate)) = two_files(alloc, "audit", words)? else {
        return Ok(None);
    };
    Ok(Some(Form::Audit {
        diagram,
        certificate,
    }))
}

/// What the arguments after the program's name ask for, or `None` where they fit no subcommand. The forms are
/// `check FILE`, `route FILE FILE` with `--workers N` and `--count`, `make SEED`, `preview FILE FILE` with
/// `--workers N`, `shared FILE`, `prove FILE` and `audit FILE FILE`. Its only error is out of memory.
pub fn read_words<'a>(alloc: Global, words: &'a [String]) -> Result<Option<Form<'a>>, AllocError>
    ensures { IfOk result (λ form. option_map view form ≡ form_of (map string_bytes words.entry.now)) }
{
    let Some(command) = words.first() else {
        return Ok(None);
    };
    match command.as_str() {
        "check" => Ok(one_file(alloc, "check", words)?.map(|diagram| Form::Check { diagram })),
        "route" => route_words(alloc, words),
        "make" => make_words(alloc, words),
        "preview" => preview_words(alloc, words),
        "shared" => Ok(one_file(alloc, "shared", words)?.map(|diagram| Form::Shared { diagram })),
        "prove" => Ok(one_file(alloc, "prove", words)?.map(|diagram| Form::Prove { diagram })),
        "audit" => audit_words(alloc, words),
        _ => Ok(None),
    }
}
