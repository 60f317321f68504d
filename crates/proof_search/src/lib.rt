//! Certificates of cost, made: for each connector of a scene its right claim, and the least labels
//! that prove it.
//!
//! Lengths and costs are in thousandths of a GML unit.
#![tactic(auto)]

mod label;
mod labels;
mod prover;
mod rows;
mod scene;
mod scope;
mod spots;
mod spread;
mod table;

pub use scene::prove;
