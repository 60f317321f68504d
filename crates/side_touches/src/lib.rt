//! Which sides of solids touch each line of a list, asked for the runs along it.
//!
//! Coordinates are in thousandths of a GML unit.
#![tactic(auto)]

mod extent;
mod row;
mod side;
mod touches;

pub use touches::{Touches, reach};
