//! The first of the legal walks of a task, found by a search over the crossings of an arena.
//!
//! Lengths and costs are in thousandths of a GML unit.
#![tactic(auto)]

mod finder;
mod follow;
mod lines;
mod tally;

pub use finder::{Finder, find_first};
pub use lines::Lines;
pub use tally::Tally;
