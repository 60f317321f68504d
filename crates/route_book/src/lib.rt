//! The current routes of a scene, and which of them an edit leaves as they are.
//!
//! Coordinates, lengths and costs are whole thousandths of a GML unit.
#![tactic(auto)]

mod answers;
mod book;
mod comparison;
mod exchange;
mod laws;
mod line;
mod reach;
mod search;
mod shapes;

pub use book::{Book, Changes};
pub use laws::current_answers_stay;
