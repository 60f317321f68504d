//! The program: `reroute` with its seven subcommands.
#![tactic(auto)]

mod hint;

use hint::print_hint;
use host_edge::{DiskFolder, StdSink, all_arguments};
use reroute_app::exit_of;
use std::process::ExitCode;

fn main(rt: HostRuntime) -> ExitCode {
    let alloc = rt.alloc();
    let arguments = all_arguments(&rt, alloc);
    let mut folder = DiskFolder::new(alloc, &rt);
    let mut out = StdSink::new(&rt);
    let exit = exit_of(&rt, alloc, &arguments, &mut folder, &mut out);
    if let Ok(words) = &arguments {
        print_hint(&rt, words, &exit);
    }
    exit.code()
}
