//! Spreads exits backwards from the endings of a task: from each place on the way of a first walk
//! it is then known what is ahead.
//!
//! Lengths and costs are in thousandths of a GML unit.
#![tactic(auto)]

mod ahead;
mod held;
mod laws;
mod limit;
mod near;
mod propagate;
mod run;
mod spread;

pub use laws::first_walks_are_known;
pub use spread::Spread;
