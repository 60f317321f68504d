//! An index of open intervals on one axis, kept in a balanced search tree.
//!
//! Coordinates are whole thousandths of a GML unit, on the sheet from -2000000000 to 2000000000.
#![tactic(auto)]

mod index;
mod span;
mod tree;

pub use index::IntervalIndex;
pub use span::Span;
