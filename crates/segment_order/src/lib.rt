//! The runs of routes, and the order of runs on a line that they share.
//!
//! Coordinates are whole thousandths of a GML unit.
#![tactic(auto)]

mod order;
mod ray;
mod run;
mod side;

pub use order::{first_entry, line_order, one_order, rays_stop};
pub use ray::Entry;
pub use run::{Run, runs_of};
pub use side::{Side, near_side};
