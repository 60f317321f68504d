//! Why connectors have no route: the first box that closes an end, or that covers a checkpoint.
//!
//! Coordinates are in thousandths of a GML unit.
#![tactic(auto)]

mod cause;
mod first;
mod list;

pub use cause::{Cause, End, cause_of};
pub use list::{Unrouted, all_unrouted};
