//! Visibility graphs: the kept lines of a floor with all their crossings.
//!
//! Coordinates are whole thousandths of a GML unit.
#![tactic(auto)]

mod fill;
mod graph;
mod meeting;

pub use fill::put_lines;
pub use graph::{Graph, GraphParts};
pub use meeting::crossings_of;
