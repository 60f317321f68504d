//! The line for people on standard error. No clause says what it says.

use reroute_app::{Exit, Hint, Place, Unrouted};

/// The words for the number of edges.
fn have(count: usize) -> &'static str {
    if count == 1 { "has" } else { "have" }
}

/// Prints to standard error what people are told of the run on these arguments, if anything.
pub(crate) fn print_hint(rt: &HostRuntime, words: &[String], exit: &Exit) {
    // Where standard error is closed, the status alone reports the fault.
    let _printed = match (exit.hint, exit.status.advice()) {
        (Hint::Unrouted(Unrouted { without, all }), None) => {
            eprintln!(rt;
                "reroute: {without} of {all} edges {} no route; reroute-explain says why",
                have(without)
            )
        }
        (Hint::At(Place { line, column }), Some(advice)) => {
            eprintln!(rt; "reroute: line {line}, column {column}: {advice}")
        }
        (Hint::NoCommand, Some(advice)) => match words.first() {
            Some(word) => eprintln!(rt; "reroute: '{word}' is no subcommand: {advice}"),
            None => eprintln!(rt; "reroute: no subcommand is given: {advice}"),
        },
        (_, Some(advice)) => eprintln!(rt; "reroute: {advice}"),
        (_, None) => Ok(()),
    };
}
