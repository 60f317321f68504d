//! The outcome of the arguments and of the files that they name, subcommand by subcommand.
ghost use Rattle.std.specs.Prelude.{◌≡◌, ◌≤◌, IfOk, Some, map, string_bytes};
ghost use Rattle.command_words.specs.Words.{audit as audit_form, check, preview as preview_form, prove as prove_form, route as route_form, shared as shared_form};
ghost use Rattle.reroute_app.specs.Diagram.{most_bytes, most_certificate_bytes, most_script_bytes};
ghost use Rattle.reroute_app.specs.Run.{IsFormOutcome, IsOutcome, ReadsInOrder};
ghost use Rattle.reroute_app.specs.View.{AnyScene, Comes, IsSmall, NotesOne, NotesTwo, answer_in};

use crate::read::{Diagram, Scripted, read_both, read_certificate, read_diagram, read_small};
use crate::stop::{Stop, not_understood};
use command_words::{Form, read_words};
use form_certificate::{audit_certificate, certificate_of};
use form_check::check_lines;
use form_make::make;
use form_preview::propose;
use form_route::{Options, route};
use form_shared::share;
use host_edge::Folder;
use par_route::Gate;
use report_text::Outcome;
use std::alloc::{AllocError, Global};
use std::thread::Threads;

/// A check of the diagram in the file with this name.
fn check_file<F: Folder>(alloc: Global, name: &str, folder: &mut F) -> Result<Outcome, Stop>
    ensures outcome { Comes (IsFormOutcome (Some (check name.now)) (F.files folder.old)
        (F.notes folder.old) (F.notes folder.new)) result }
    ensures notes { NotesOne name.now most_bytes (F.notes folder.old) (F.notes folder.new) }
    ensures files_kept { F.files folder.new ≡ F.files folder.old }
{
    let diagram = read_diagram(alloc, folder, name)?;
    Ok(check_lines(alloc, &diagram.doc, &diagram.scene)?)
}

/// A replay of the script on the diagram in the files with these names.
fn replay_files<R: Threads + Sync, F: Folder, G: Gate>(
    rt: &R,
    alloc: Global,
    diagram: &str,
    script: &str,
    options: Options,
    folder: &mut F,
    gate: &G,
) -> Result<Outcome, Stop>
    requires some { 1 ≤ options.workers }
    requires few_workers { options.workers ≤ 4 }
    ensures outcome { Comes (IsFormOutcome (Some (route_form diagram.now script.now options.workers options.count)) (F.files folder.old)
        (F.notes folder.old) (F.notes folder.new)) result }
    ensures notes { NotesTwo (F.files folder.old) diagram.now script.now most_script_bytes AnyScene
        (F.notes folder.old) (F.notes folder.new) }
    ensures files_kept { F.files folder.new ≡ F.files folder.old }
{
    let both = read_both(alloc, folder, diagram, script)?;
    let Scripted { diagram, commands } = both;
    let Diagram { doc, scene } = diagram;
    Ok(route(rt, alloc, &doc, scene, &commands, options, gate)?)
}

/// What each transaction that the script proposes would give on the diagram, both in the files with these names.
fn preview_files<R: Threads + Sync, F: Folder, G: Gate>(
    rt: &R,
    alloc: Global,
    diagram: &str,
    script: &str,
    workers: u32,
    folder: &mut F,
    gate: &G,
) -> Result<Outcome, Stop>
    requires some { 1 ≤ workers }
    requires few_workers { workers ≤ 4 }
    ensures outcome { Comes (IsFormOutcome (Some (preview_form diagram.now script.now workers)) (F.files folder.old)
        (F.notes folder.old) (F.notes folder.new)) result }
    ensures notes { NotesTwo (F.files folder.old) diagram.now script.now most_script_bytes AnyScene
        (F.notes folder.old) (F.notes folder.new) }
    ensures files_kept { F.files folder.new ≡ F.files folder.old }
{
    let both = read_both(alloc, folder, diagram, script)?;
    let Scripted { diagram, commands } = both;
    Ok(propose(rt, alloc, diagram.scene, &commands, workers, gate)?)
}

/// The shared paths of the diagram in the file with this name.
fn share_file<R: Threads + Sync, F: Folder, G: Gate>(
    rt: &R,
    alloc: Global,
    name: &str,
    folder: &mut F,
    gate: &G,
) -> Result<Outcome, Stop>
    ensures outcome { Comes (IsFormOutcome (Some (shared_form name.now)) (F.files folder.old)
        (F.notes folder.old) (F.notes folder.new)) result }
    ensures notes { NotesOne name.now most_bytes (F.notes folder.old) (F.notes folder.new) }
    ensures files_kept { F.files folder.new ≡ F.files folder.old }
{
    let diagram = read_diagram(alloc, folder, name)?;
    Ok(share(rt, alloc, diagram.scene, gate)?)
}

/// The certificate of the diagram in the file with this name.
fn prove_file<F: Folder>(alloc: Global, name: &str, folder: &mut F) -> Result<Outcome, Stop>
    ensures outcome { Comes (IsFormOutcome (Some (prove_form name.now)) (F.files folder.old)
        (F.notes folder.old) (F.notes folder.new)) result }
    ensures notes { NotesOne name.now most_bytes (F.notes folder.old) (F.notes folder.new) }
    ensures files_kept { F.files folder.new ≡ F.files folder.old }
{
    let diagram = read_small(alloc, folder, name)?;
    Ok(certificate_of(alloc, &diagram.scene)?)
}

/// What an audit of the certificate says of the diagram, both in the files with these names.
fn audit_files<F: Folder>(
    alloc: Global,
    diagram: &str,
    certificate: &str,
    folder: &mut F,
) -> Result<Outcome, Stop>
    ensures outcome { Comes (IsFormOutcome (Some (audit_form diagram.now certificate.now)) (F.files folder.old)
        (F.notes folder.old) (F.notes folder.new)) result }
    ensures notes { NotesTwo (F.files folder.old) diagram.now certificate.now most_certificate_bytes IsSmall
        (F.notes folder.old) (F.notes folder.new) }
    ensures files_kept { F.files folder.new ≡ F.files folder.old }
{
    let read = read_small(alloc, folder, diagram)?;
    let bytes = read_certificate(alloc, folder, certificate)?;
    Ok(audit_certificate(alloc, &read.scene, &bytes)?)
}

/// The outcome of a run that finished, or that stopped early.
fn answer_of(answered: Result<Outcome, Stop>) -> Result<Outcome, AllocError>
    ensures { IfOk result (λ o. answer_in answered ≡ Some o) }
{
    match answered {
        Ok(outcome) => Ok(outcome),
        Err(Stop::Ended(outcome)) => Ok(outcome),
        Err(Stop::Memory) => Err(AllocError),
    }
}

/// The outcome of the arguments, unless out of memory.
pub(crate) fn outcome_of<R: Threads + Sync, F: Folder, G: Gate>(
    rt: &R,
    alloc: Global,
    words: &[String],
    folder: &mut F,
    gate: &G,
) -> Result<Outcome, AllocError>
    ensures outcome { IfOk result (λ o. IsOutcome (map string_bytes words.now) (F.files folder.old)
        (F.notes folder.old) (F.notes folder.new) o) }
    ensures notes { ReadsInOrder (map string_bytes words.now) (F.files folder.old) (F.notes folder.old) (F.notes folder.new) }
    ensures files_kept { F.files folder.new ≡ F.files folder.old }
{
    match read_words(alloc, words)? {
        None => not_understood(alloc),
        Some(Form::Check { diagram }) => answer_of(check_file(alloc, diagram, folder)),
        Some(
            Form::Route {
                diagram,
                script,
                workers,
                count,
            },
        ) => {
            let options = Options { workers, count };
            answer_of(replay_files(rt, alloc, diagram, script, options, folder, gate))
        }
        Some(Form::Make { seed }) => make(rt, alloc, seed, gate),
        Some(
            Form::Preview {
                diagram,
                script,
                workers,
            },
        ) => answer_of(preview_files(rt, alloc, diagram, script, workers, folder, gate)),
        Some(Form::Shared { diagram }) => answer_of(share_file(rt, alloc, diagram, folder, gate)),
        Some(Form::Prove { diagram }) => answer_of(prove_file(alloc, diagram, folder)),
        Some(
            Form::Audit {
                diagram,
                certificate,
            },
        ) => answer_of(audit_files(alloc, diagram, certificate, folder)),
    }
}
