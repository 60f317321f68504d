//! The end of the program: its exit code, and what people are told.
ghost use Rattle.std.specs.Prelude.{◌≡◌, IfOk, OnErr, map, string_bytes};
ghost use Rattle.std.specs.Process.{exit_status};
ghost use Rattle.reroute_app.specs.Exit.{WritesAndTells, told};
ghost use Rattle.reroute_app.specs.Run.{ReadsInOrder, WritesPart};
ghost use Rattle.report_text.specs.Status.{IsOutputWritten, code_of};
ghost use Rattle.report_text.specs.declared.hint.Hint.TheVariants as hints;

use crate::form::outcome_of;
use crate::hint::words_hint;
use form_certificate::certificates_come_to_one;
use form_preview::proposals_come_to_one;
use host_edge::{Folder, Sink, WriteFailed, write_all_to};
use par_route::OpenGate;
use report_text::{Hint, Outcome, Status};
use std::alloc::{AllocError, Global};
use std::process::ExitCode;
use std::thread::Threads;

/// How the program ends.
#[derive(Clone, Copy, Debug, PartialEq, Eq)]
pub struct Exit {
    /// The status that the run ends with. Its code is the exit code.
    pub status: Status,
    /// What people are told.
    pub hint: Hint,
}

impl Exit {
    /// The exit code. Takes no memory.
    pub fn code(&self) -> ExitCode
        ensures { exit_status result ≡ code_of self.now.status }
    {
        ExitCode::from(self.status.code())
    }
}

/// What people are told where the arguments end with this status and this hint.
fn told(words: &[String], status: Status, hint: Hint) -> Hint
    ensures { result ≡ told (map string_bytes words.now) status hint }
{
    match status {
        Status::Words => words_hint(words),
        Status::WriteFault | Status::NoMemory => Hint::Nothing,
        Status::Done
        | Status::Refused
        | Status::Diagram
        | Status::ReadFault
        | Status::TooLong
        | Status::BadLine
        | Status::AuditNo => hint,
    }
}

/// Does what the arguments ask for, as `run` does.
fn ended<R: Threads + Sync, F: Folder, O: Sink>(
    rt: &R,
    alloc: Global,
    words: &[String],
    folder: &mut F,
    out: &mut O,
) -> Exit
    ensures whole { IsOutputWritten result.status → WritesAndTells (map string_bytes words.now) (F.files folder.old)
        (F.notes folder.old) (F.notes folder.new) (O.held out.old) (O.held out.new) result.status result.hint }
    ensures part { result.status ≡ Status.WriteFault → WritesPart (map string_bytes words.now) (F.files folder.old)
        (F.notes folder.old) (F.notes folder.new) (O.held out.old) (O.held out.new) }
    ensures nothing { result.status ≡ Status.NoMemory → O.held out.new ≡ O.held out.old }
    ensures silent { (IsOutputWritten result.status → ⊥) → result.hint ≡ hints.Nothing }
    ensures notes { ReadsInOrder (map string_bytes words.now) (F.files folder.old) (F.notes folder.old) (F.notes folder.new) }
{
    // For the proof: proposals and audits have one answer.
    proposals_come_to_one();
    certificates_come_to_one();
    let Ok(outcome) = outcome_of(rt, alloc, words, folder, &OpenGate) else {
        return Exit {
            status: Status::NoMemory,
            hint: Hint::Nothing,
        };
    };
    let Outcome {
        status,
        text,
        hint,
        ..
    } = outcome;
    match write_all_to(out, &text) {
        Ok(()) => Exit {
            status,
            hint: told(words, status, hint),
        },
        Err(WriteFailed) => Exit {
            status: Status::WriteFault,
            hint: Hint::Nothing,
        },
    }
}

/// Runs the program on its arguments, as `run` does, and returns how it ends: its status, and what people are told
/// besides the output. The exit code is that of the status.
///
/// Where memory did not suffice to collect the arguments, nothing is read or written, and the status is `NoMemory`.
pub fn exit_of<R: Threads + Sync, F: Folder, O: Sink>(
    rt: &R,
    alloc: Global,
    arguments: &Result<Vec<String>, AllocError>,
    folder: &mut F,
    out: &mut O,
) -> Exit
    // The bytes that the sink got are the output, and people are told its hint, unless the sink failed or memory ran out.
    ensures whole { IfOk arguments.now (λ a. IsOutputWritten result.status → WritesAndTells (map string_bytes a.items)
        (F.files folder.old) (F.notes folder.old) (F.notes folder.new) (O.held out.old) (O.held out.new) result.status result.hint) }
    ensures part { IfOk arguments.now (λ a. result.status ≡ Status.WriteFault → WritesPart (map string_bytes a.items)
        (F.files folder.old) (F.notes folder.old) (F.notes folder.new) (O.held out.old) (O.held out.new)) }
    ensures nothing { result.status ≡ Status.NoMemory → O.held out.new ≡ O.held out.old }
    ensures silent { (IsOutputWritten result.status → ⊥) → result.hint ≡ hints.Nothing }
    ensures notes { IfOk arguments.now (λ a. ReadsInOrder (map string_bytes a.items) (F.files folder.old)
        (F.notes folder.old) (F.notes folder.new)) }

    // Without the arguments nothing is read.
    ensures no_arguments { OnErr arguments.now (result.status ≡ Status.NoMemory) }
    ensures no_reads { OnErr arguments.now (F.notes folder.new ≡ F.notes folder.old) }
{
    match arguments {
        Ok(words) => ended(rt, alloc, words, folder, out),
        Err(AllocError) => Exit {
            status: Status::NoMemory,
            hint: Hint::Nothing,
        },
    }
}
