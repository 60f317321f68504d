//! The paths that routes share, and the crossings of lines.
//!
//! Coordinates are whole thousandths of a GML unit.
#![tactic(auto)]

mod crossing;
mod laws;
mod pair;
mod path;
mod sharing;
mod start;
mod stretch;

pub use crossing::crossings;
pub use laws::{one_list_of_paths, shared_paths_keep_sides};
pub use path::{EdgeRuns, End, Runs, SharedPath};
pub use segment_order::Side;
pub use sharing::shared;
