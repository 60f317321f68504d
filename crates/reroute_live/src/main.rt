//! The program `reroute_live [FILE] [--workers N]`: a session beside an editor in any language.
#![tactic(auto)]

ghost use Rattle.std.specs.Prelude.{◌≤◌};

mod arguments;
mod diagram;

use arguments::{Asked, asked_for};
use diagram::live_on;
use host_edge::{ReaderLines, StdSink};
use live_replies::{Live, ServeFault, serve};
use par_route::OpenGate;
use report_text::Status;
use std::io::BufReader;
use std::process::ExitCode;
use std::thread::Threads;

/// The status of a fault that ends a session.
fn status_of(fault: ServeFault) -> Status {
    match fault {
        ServeFault::Read | ServeFault::Exhausted => Status::ReadFault,
        ServeFault::Write => Status::WriteFault,
        ServeFault::Memory => Status::NoMemory,
    }
}

/// Serves a session over standard input and output, and answers how it ends.
fn serve_standard<R: Threads + Sync>(
    rt: &R,
    edge: &HostRuntime,
    live: &mut Live,
    workers: u32,
) -> Status
    requires some { 1 ≤ workers }
    requires few_workers { workers ≤ 4 }
{
    let alloc = edge.alloc();
    let Ok(reader) = BufReader::new(alloc, edge.reader()) else {
        return Status::NoMemory;
    };
    let mut lines = ReaderLines::new(reader);
    let mut out = StdSink::new(edge);
    match serve(rt, alloc, live, &mut lines, &mut out, workers, &OpenGate) {
        Ok(_) => Status::Done,
        Err(fault) => status_of(fault),
    }
}

/// Serves what is asked for, and answers how that ends. A line on standard error says what to do then.
fn serve_asked<R: Threads + Sync>(rt: &R, edge: &HostRuntime, asked: Asked) -> Status
    requires some { 1 ≤ asked.workers }
    requires few_workers { asked.workers ≤ 4 }
{
    let Asked { file, workers } = asked;
    let status = match live_on(rt, edge, file, workers) {
        Ok(mut live) => serve_standard(rt, edge, &mut live, workers),
        Err(status) => status,
    };
    if let Some(advice) = status.advice() {
        // Where standard error is closed, the status alone reports the fault.
        let _printed = eprintln!(edge; "reroute_live: {advice}");
    }
    status
}

fn main(rt: HostRuntime) -> ExitCode {
    let status = match asked_for(&rt, rt.alloc()) {
        Ok(asked) => serve_asked(&rt, &rt, asked),
        Err(status) => status,
    };
    ExitCode::from(status.code())
}
