//! What a search for a first walk keeps of the lines: where walks leave them, and what is ahead
//! there.
//!
//! Lengths and costs are in thousandths of a GML unit.
#![tactic(auto)]

mod exit;
mod rows;

pub use exit::{Exit, Kept};
pub use rows::{Rows, lesser};
