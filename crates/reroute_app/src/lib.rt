//! The program's runs, from the arguments to the bytes that are written.
#![tactic(auto)]

ghost use Rattle.std.specs.Prelude.{◌≡◌, ◌≢◌, ◌≤◌, ◌↔◌, ℕ, List, Option, None, map, string_bytes, IsSome};
ghost use Rattle.host_edge.specs.Count.{NeverFalls, Rose};
ghost use Rattle.host_edge.specs.Folder.{ExposedFiles};
ghost use Rattle.host_edge.specs.Note.{Note};
ghost use Rattle.command_words.specs.Words.{form_of};
ghost use Rattle.reroute_app.specs.Causes.{ClaimsAreTrue, FindsBadLine, FindsNoDiagram, FindsNoProof, FindsNothing, FindsRefusal, LastFailed, LastTookMore};
ghost use Rattle.reroute_app.specs.Lines.{RunsWriteGoodLines};
ghost use Rattle.reroute_app.specs.Run.{HasOneOutcome, ReadsInOrder, Tallies, Writes, WritesPart};
ghost use Rattle.report_text.specs.Status.{IsOutputWritten};

mod complete;
mod exit;
mod form;
mod hint;
mod read;
mod stop;

use crate::form::outcome_of;
pub use complete::run_to_completion;
pub use exit::{Exit, exit_of};
use form_certificate::certificates_come_to_one;
use form_check::checks_come_to_one;
use form_make::seeds_come_to_one;
use form_preview::proposals_come_to_one;
use form_route::{replays_come_to_one, written_lines_are_legal_and_apart};
use form_shared::shares_come_to_one;
use host_edge::{Folder, Sink, WriteFailed, write_all_to};
use par_route::{Gate, OpenGate};
use report_text::Outcome;
pub use report_text::{Hint, Place, Status, Unrouted};
use route_search::Tally;
use std::alloc::Global;
use std::thread::Threads;

/// Does what the arguments after the program's name ask for, with a gate that each piece of
/// searches passes.
///
/// The subcommands are those of `command_words::read_words`:
///
/// - `check FILE` reads the file as a diagram in GML, and writes for the line of each edge its cost
///   or the first rule that it breaks.
/// - `route FILE FILE`, with `--workers N` and `--count`, reads a diagram and a script, replays the
///   script, and writes the report and the diagram of the scene at the end, with its nudged lines,
///   which are legal and apart by the law `routed_lines_are_legal_and_apart`.
/// - `make SEED` generates a diagram and a script from a seed, routes them, and writes a summary.
/// - `preview FILE FILE`, with `--workers N`, reads a diagram and a script of proposed transactions,
///   and writes what each of them would give: the costs of its edges, or its first edit that is
///   refused.
/// - `shared FILE` reads a diagram, and writes the paths that its routes share and how often its
///   nudged lines cross.
/// - `prove FILE` reads a diagram, and writes a certificate of the costs of its connectors.
/// - `audit FILE FILE` reads a diagram and a certificate, and says whether the certificate proves
///   the costs.
///
/// The whole output is made first, and then written. `tally` counts the searches that `route`,
/// `make` and `shared` made, and those that opened the scene of `preview`.
pub fn run_gated<R: Threads + Sync, F: Folder, O: Sink, G: Gate>(
    rt: &R,
    alloc: Global,
    words: &[String],
    folder: &mut F,
    out: &mut O,
    gate: &G,
    tally: &mut Tally,
) -> Status
    // The bytes that the sink got are the output, and all of it unless the sink failed or memory
    // ran out.
    ensures output { IsOutputWritten result → Writes (map string_bytes words.now) (F.files folder.old)
        (F.notes folder.old) (F.notes folder.new) (O.held out.old) (O.held out.new) result }
    ensures part { result ≡ Status.WriteFault → WritesPart (map string_bytes words.now)
        (F.files folder.old) (F.notes folder.old) (F.notes folder.new) (O.held out.old) (O.held out.new) }
    ensures nothing { result ≡ Status.NoMemory
        → (O.held out.new ≡ O.held out.old) × (O.faults out.new ≡ O.faults out.old) }

    // Each status is returned exactly if its cause holds, unless the sink failed or memory ran out.
    ensures words { IsOutputWritten result → (result ≡ Status.Words) ↔ (form_of (map string_bytes words.now) ≡ None) }
    ensures read_fault { IsOutputWritten result → (result ≡ Status.ReadFault)
        ↔ LastFailed (F.notes folder.old) (F.notes folder.new) }
    ensures too_long { IsOutputWritten result → (result ≡ Status.TooLong)
        ↔ LastTookMore (F.notes folder.old) (F.notes folder.new) }
    ensures diagram { IsSome (F.files folder.old) → IsOutputWritten result → (result ≡ Status.Diagram)
        ↔ FindsNoDiagram (map string_bytes words.now) (F.files folder.old) (F.notes folder.old) (F.notes folder.new) }
    ensures refused { IsSome (F.files folder.old) → IsOutputWritten result → (result ≡ Status.Refused)
        ↔ FindsRefusal (map string_bytes words.now) (F.files folder.old) (F.notes folder.old) (F.notes folder.new) }
    ensures bad_line { IsSome (F.files folder.old) → IsOutputWritten result → (result ≡ Status.BadLine)
        ↔ FindsBadLine (map string_bytes words.now) (F.files folder.old) (F.notes folder.old) (F.notes folder.new) }
    ensures audit_no { IsSome (F.files folder.old) → IsOutputWritten result → (result ≡ Status.AuditNo)
        ↔ FindsNoProof (map string_bytes words.now) (F.files folder.old) (F.notes folder.old) (F.notes folder.new) }
    ensures done { IsSome (F.files folder.old) → IsOutputWritten result → (result ≡ Status.Done)
        ↔ FindsNothing (map string_bytes words.now) (F.files folder.old) (F.notes folder.old) (F.notes folder.new) }
    ensures write_fault { result ≡ Status.WriteFault → Rose (O.faults out.old) (O.faults out.new) }

    // An audit that says yes is of a certificate whose claims are true.
    ensures claims { result ≡ Status.Done → ClaimsAreTrue (map string_bytes words.now)
        (F.files folder.old) (F.notes folder.old) (F.notes folder.new) }

    // The files that the arguments name are read in order, each at most once and with its limit,
    // and no other files are.
    ensures notes { ReadsInOrder (map string_bytes words.now) (F.files folder.old) (F.notes folder.old) (F.notes folder.new) }
    ensures files_kept { F.files folder.new ≡ F.files folder.old }
    ensures never_falls { NeverFalls (O.faults out.old) (O.faults out.new) }

    // The counted searches are exactly those that were made.
    ensures tally { IsSome (F.files folder.old) → result ≢ Status.NoMemory → Tallies (map string_bytes words.now)
        (F.files folder.old) (F.notes folder.old) (F.notes folder.new) tally.old tally.new }
    ensures tally_never_falls { tally.old ≤ tally.new }
{
    tally.bounded();
    // For the proof: proposals and audits have one answer.
    proposals_come_to_one();
    certificates_come_to_one();
    let Ok(outcome) = outcome_of(rt, alloc, words, folder, gate) else {
        return Status::NoMemory;
    };
    let Outcome {
        status,
        text,
        tally: part,
        ..
    } = outcome;
    if let Some(part) = part {
        tally.join(part);
    }
    match write_all_to(out, &text) {
        Ok(()) => status,
        Err(WriteFailed) => Status::WriteFault,
    }
}

/// The same with a gate that delays no piece of searches.
///
/// The subcommands are those of `run_gated`, and `routed_lines_are_legal_and_apart` is the law of
/// the lines that `route` writes. The whole output is made first, and then written. `tally` counts
/// the searches that `route`, `make` and `shared` made, and those that opened the scene of `preview`.
pub fn run<R: Threads + Sync, F: Folder, O: Sink>(
    rt: &R,
    alloc: Global,
    words: &[String],
    folder: &mut F,
    out: &mut O,
    tally: &mut Tally,
) -> Status
    // The bytes that the sink got are the output, and all of it unless the sink failed or memory
    // ran out.
    ensures output { IsOutputWritten result → Writes (map string_bytes words.now) (F.files folder.old)
        (F.notes folder.old) (F.notes folder.new) (O.held out.old) (O.held out.new) result }
    ensures part { result ≡ Status.WriteFault → WritesPart (map string_bytes words.now)
        (F.files folder.old) (F.notes folder.old) (F.notes folder.new) (O.held out.old) (O.held out.new) }
    ensures nothing { result ≡ Status.NoMemory
        → (O.held out.new ≡ O.held out.old) × (O.faults out.new ≡ O.faults out.old) }

    // Each status is returned exactly if its cause holds, unless the sink failed or memory ran out.
    ensures words { IsOutputWritten result → (result ≡ Status.Words) ↔ (form_of (map string_bytes words.now) ≡ None) }
    ensures read_fault { IsOutputWritten result → (result ≡ Status.ReadFault)
        ↔ LastFailed (F.notes folder.old) (F.notes folder.new) }
    ensures too_long { IsOutputWritten result → (result ≡ Status.TooLong)
        ↔ LastTookMore (F.notes folder.old) (F.notes folder.new) }
    ensures diagram { IsSome (F.files folder.old) → IsOutputWritten result → (result ≡ Status.Diagram)
        ↔ FindsNoDiagram (map string_bytes words.now) (F.files folder.old) (F.notes folder.old) (F.notes folder.new) }
    ensures refused { IsSome (F.files folder.old) → IsOutputWritten result → (result ≡ Status.Refused)
        ↔ FindsRefusal (map string_bytes words.now) (F.files folder.old) (F.notes folder.old) (F.notes folder.new) }
    ensures bad_line { IsSome (F.files folder.old) → IsOutputWritten result → (result ≡ Status.BadLine)
        ↔ FindsBadLine (map string_bytes words.now) (F.files folder.old) (F.notes folder.old) (F.notes folder.new) }
    ensures audit_no { IsSome (F.files folder.old) → IsOutputWritten result → (result ≡ Status.AuditNo)
        ↔ FindsNoProof (map string_bytes words.now) (F.files folder.old) (F.notes folder.old) (F.notes folder.new) }
    ensures done { IsSome (F.files folder.old) → IsOutputWritten result → (result ≡ Status.Done)
        ↔ FindsNothing (map string_bytes words.now) (F.files folder.old) (F.notes folder.old) (F.notes folder.new) }
    ensures write_fault { result ≡ Status.WriteFault → Rose (O.faults out.old) (O.faults out.new) }

    // An audit that says yes is of a certificate whose claims are true.
    ensures claims { result ≡ Status.Done → ClaimsAreTrue (map string_bytes words.now)
        (F.files folder.old) (F.notes folder.old) (F.notes folder.new) }

    // The files that the arguments name are read in order, each at most once and with its limit,
    // and no other files are.
    ensures notes { ReadsInOrder (map string_bytes words.now) (F.files folder.old) (F.notes folder.old) (F.notes folder.new) }
    ensures files_kept { F.files folder.new ≡ F.files folder.old }
    ensures never_falls { NeverFalls (O.faults out.old) (O.faults out.new) }

    // The counted searches are exactly those that were made.
    ensures tally { IsSome (F.files folder.old) → result ≢ Status.NoMemory → Tallies (map string_bytes words.now)
        (F.files folder.old) (F.notes folder.old) (F.notes folder.new) tally.old tally.new }
    ensures tally_never_falls { tally.old ≤ tally.new }
{
    run_gated(rt, alloc, words, folder, out, &OpenGate, tally)
}

/// For given arguments, exposed files and notes there is exactly one outcome, and so one output and
/// one status, whatever the files contain.
pub fn one_outcome()
    ensures { (words : List (List ℕ)) (files : Option ExposedFiles) (old new : List Note) → IsSome files →
        HasOneOutcome words files old new }
{
    checks_come_to_one();
    replays_come_to_one();
    seeds_come_to_one();
    proposals_come_to_one();
    shares_come_to_one();
    certificates_come_to_one();
}

/// Where the arguments ask for `route`, and the outcome is that something was refused, or nothing
/// was, the lines in its output are legal walks of their connectors, and keep every separation of
/// both phases.
pub fn routed_lines_are_legal_and_apart()
    ensures { RunsWriteGoodLines }
{
    written_lines_are_legal_and_apart();
}
