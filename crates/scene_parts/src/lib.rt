//! The parts of a scene: its lists with their look-ups, the refusals of edits, and the effects and
//! inverses of edits.
//!
//! Coordinates, lengths and costs are whole thousandths of a GML unit.
#![tactic(auto)]

mod changes;
mod inverses;
mod keyed;
mod loads;
mod parts;
mod refusals;

pub use parts::Parts;
