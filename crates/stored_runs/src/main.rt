//! Runs the program on each stored case, and prints its output and its status.
#![tactic(auto)]

use host_edge::{DiskFolder, StdSink};
use reroute_app::run;
use route_search::Tally;
use std::alloc::{AllocError, Global};
use std::rt::Files;
use std::thread::Threads;
use std::{fs, io};

/// The cases, one a line: the arguments of a run, with a space between two.
const CASES: &str = "cases.txt";

fn arguments_of(alloc: Global, case: &str) -> Result<Vec<String>, AllocError> {
    let mut arguments = Vec::new(alloc);
    for argument in case.split(' ') {
        arguments.push(argument.to_string(alloc)?)?;
    }
    Ok(arguments)
}

/// Runs the program on the files of this folder.
fn run_case(
    rt: &(impl Files + Print + Threads + Sync),
    alloc: Global,
    case: &str,
) -> io::Result<()> {
    let arguments = arguments_of(alloc, case)?;
    println!(rt; "$ reroute {case}")?;
    let mut folder = DiskFolder::new(alloc, rt);
    let mut out = StdSink::new(rt);
    let status = run(
        rt,
        alloc,
        &arguments,
        &mut folder,
        &mut out,
        &mut Tally::new(),
    );
    println!(rt; "status {}", status.code())
}

fn main(rt: HostRuntime) -> io::Result<()> {
    let cases = fs::read_to_string(&rt, CASES)?;
    for case in cases.as_str().lines() {
        // Comments and empty lines group the cases.
        if !case.is_empty() && !case.starts_with('#') {
            run_case(&rt, rt.alloc(), case)?;
        }
    }
    Ok(())
}
