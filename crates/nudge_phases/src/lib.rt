//! Nudging: both phases, from raw routes and from a scene's right answers to lines that keep their distance, with their laws.
//!
//! Coordinates are whole thousandths of a GML unit.
#![tactic(auto)]

mod laws;
mod lines;
mod moves;
mod nudging;
mod phase_laws;
mod phases;
mod raw;
mod routes;
mod runs;
mod solutions;

pub use laws::{nudged_lines_are_short, nudged_scenes_are_legal_and_apart, one_nudged_scene};
pub use nudging::nudge;
pub use phase_laws::{
    bundles_may_be_solved, legal_routes_may_stay, legal_walks_hold_ports, nudged_lines_are_legal,
    nudged_lines_keep_apart, one_list_of_bundles, one_nudged, phase_y_accepts, runs_go_along_lines,
};
pub use phases::phase;
pub use routes::{Nudged, nudge_routes};
pub use runs::{legal_runs_make_legal_walks, legal_walks_are_legal_along_runs};
