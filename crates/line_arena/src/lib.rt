//! The lines of a visibility graph and their crossings: each crossing is a node of two linked
//! lists at once.
//!
//! Coordinates are whole thousandths of a GML unit. East is +x and South is +y.
#![tactic(auto)]

mod arena;
mod entries;
mod id;
mod laws;
mod lists;
mod node;
mod order;
mod room;

pub use arena::LineArena;
pub use id::{CrossId, LineId};
pub use laws::crossings_of_floor;
