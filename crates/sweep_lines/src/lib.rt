//! The lines of a visibility graph: the kept lines of a floor, by one sweep for each way.
//!
//! Coordinates are whole thousandths of a GML unit, on the sheet from -2000000000 to 2000000000.
#![tactic(auto)]

mod bar;
mod mark;
mod near;
mod sweep;

pub use near::is_near;
pub use sweep::{all_lines, lines_at, lines_near, one_list_of_kept_lines};
