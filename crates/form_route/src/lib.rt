//! Scripts on diagrams: the output of a replay.
#![tactic(auto)]

mod laws;
mod report;
mod script;

pub use laws::{replays_come_to_one, written_lines_are_legal_and_apart};
pub use report::{edges_routed, script_status};
pub use report_text::Unrouted;
pub use script::{Options, route};
