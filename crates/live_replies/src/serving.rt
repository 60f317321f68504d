//! The loop that serves: it reads a line, and writes the reply to it before it reads the next.
ghost use Rattle.std.specs.Prelude.{◌≡◌, ◌≤◌, Err, IfErr, IfOk, IsOk, OnErr, OnOk, Ok, Some, vec_capacity};
ghost use Rattle.std.specs.Io.KnownBytes.{append_known};
ghost use Rattle.host_edge.specs.Count.{NeverFalls, Rose};
ghost use Rattle.host_edge.specs.Sink.{AppendsPart};
ghost use Rattle.live_replies.specs.declared.serving.ServeFault.TheVariants as faults;
ghost use Rattle.live_replies.specs.Said.{said_bytes};
ghost use Rattle.live_replies.specs.Serves.{EndsTurn, FailsTo, ServesTo, end_after};

use crate::live::Live;
use crate::reply::Said;
use host_edge::{LineRead, LineSource, ReadFailed, Sink, WriteFailed, write_all_to};
use par_route::Gate;
use std::alloc::{AllocError, Global};
use std::thread::Threads;
use thiserror::Error;

/// The greatest number of bytes of a line.
const MOST_LINE: usize = 4096;

/// What ended a session that was served.
#[derive(Clone, Copy, Debug, PartialEq, Eq)]
pub enum End {
    /// The input has ended.
    Input,
    /// The client asked for the end.
    Quit,
}

/// Why a session is served no longer.
#[derive(Clone, Copy, Debug, PartialEq, Eq, Error)]
pub enum ServeFault {
    /// The input cannot be read.
    #[error("the input cannot be read")]
    Read,
    /// The output cannot be written. A part of a reply may have been.
    #[error("the output cannot be written")]
    Write,
    /// No memory was left for a line, before the first one was read.
    #[error("no memory is left")]
    Memory,
    /// 2^64 - 1 lines were answered.
    #[error("no more lines are answered")]
    Exhausted,
}

impl From<ReadFailed> for ServeFault {
    ghost from_gives = { λ _ fault. fault ≡ faults.Read };

    fn from(_: ReadFailed) -> ServeFault {
        ServeFault::Read
    }
}

impl From<WriteFailed> for ServeFault {
    ghost from_gives = { λ _ fault. fault ≡ faults.Write };

    fn from(_: WriteFailed) -> ServeFault {
        ServeFault::Write
    }
}

impl From<AllocError> for ServeFault {
    ghost from_gives = { λ _ fault. fault ≡ faults.Memory };

    fn from(_: AllocError) -> ServeFault {
        ServeFault::Memory
    }
}

/// Writes the whole of what is said, and answers whether it ends the session.
fn say<O: Sink>(out: &mut O, said: (Said, bool)) -> Result<Option<End>, ServeFault>
    ensures whole { OnOk result (O.held out.new ≡ append_known (O.held out.old) (said_bytes said.0)) }
    ensures end { IfOk result (λ end. end ≡ end_after said.1) }
    ensures err { IfErr result (λ fault. fault ≡ ServeFault.Write) }
    ensures part { OnErr result (AppendsPart (O.held out.old) (O.held out.new) (said_bytes said.0)) }
    ensures rose { OnErr result (Rose (O.faults out.old) (O.faults out.new)) }
    ensures never_falls { NeverFalls (O.faults out.old) (O.faults out.new) }
{
    let (said, is_last) = said;
    write_all_to(out, said.bytes())?;
    Ok(if is_last { Some(End::Quit) } else { None })
}

/// Reads a line, and writes the reply to it.
fn turn<R: Threads + Sync, G: Gate, L: LineSource, O: Sink>(
    rt: &R,
    live: &mut Live,
    lines: &mut L,
    out: &mut O,
    line: &mut Vec<u8>,
    workers: u32,
    gate: &G,
) -> Result<Option<End>, ServeFault>
    requires some { 1 ≤ workers }
    requires few_workers { workers ≤ 4 }
    requires room { 4096 ≤ vec_capacity line.old }
    ensures ends { EndsTurn result
        (record { rest = L.rest lines.old; held = O.held out.old; live = live.old })
        (record { rest = L.rest lines.new; held = O.held out.new; live = live.new }) }
    ensures room { vec_capacity line.new ≡ vec_capacity line.old }
    ensures read_failed { result ≡ Err ServeFault.Read → Rose (L.faults lines.old) (L.faults lines.new) }
    ensures write_failed { result ≡ Err ServeFault.Write → Rose (O.faults out.old) (O.faults out.new) }
    ensures reads { NeverFalls (L.faults lines.old) (L.faults lines.new) }
    ensures writes { NeverFalls (O.faults out.old) (O.faults out.new) }
{
    match lines.next_line(line, MOST_LINE)? {
        LineRead::Whole => say(out, live.reply(rt, line, workers, gate)),
        LineRead::TooLong => say(out, (live.refuse_long_line(), false)),
        LineRead::End => Ok(Some(End::Input)),
    }
}

/// Reads lines, and writes the reply to each before it reads the next, until the input ends, the client asks for the
/// end, or a fault comes. A line has at most 4096 bytes.
///
/// It does not end by itself: an error is `Read` or `Write` only where the input or the output counted a fault, `Memory`
/// only before the first line is read, and `Exhausted` only after 2^64 - 1 lines. Whatever ends it, `live` is as after the
/// lines that were read.
pub fn serve<R: Threads + Sync, G: Gate, L: LineSource, O: Sink>(
    rt: &R,
    alloc: Global,
    live: &mut Live,
    lines: &mut L,
    out: &mut O,
    workers: u32,
    gate: &G,
) -> Result<End, ServeFault>
    requires some { 1 ≤ workers }
    requires few_workers { workers ≤ 4 }
    ensures ok { IfOk result (λ end. ServesTo (Ok (Some end))
        (record { rest = L.rest lines.old; held = O.held out.old; live = live.old })
        (record { rest = L.rest lines.new; held = O.held out.new; live = live.new })) }
    ensures err { IfErr result (λ fault. FailsTo fault
        (record { rest = L.rest lines.old; held = O.held out.old; live = live.old })
        (record { rest = L.rest lines.new; held = O.held out.new; live = live.new })) }
    ensures read_failed { result ≡ Err ServeFault.Read → Rose (L.faults lines.old) (L.faults lines.new) }
    ensures write_failed { result ≡ Err ServeFault.Write → Rose (O.faults out.old) (O.faults out.new) }
{
    let mut line = Vec::with_capacity(alloc, MOST_LINE)?;
    let mut count = 0;
    while count < u64::MAX {
        if let Some(end) = turn(rt, live, lines, out, &mut line, workers, gate)? {
            return Ok(end);
        }
        count += 1;
    }
    Err(ServeFault::Exhausted)
}
