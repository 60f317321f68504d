//! Searches for the first walks of many tasks, side by side or one after the other.
#![tactic(auto)]

mod gate;
mod passed;
mod pieces;
mod routes;
mod watch;

pub use gate::{Gate, OpenGate};
pub use pieces::{Piece, cut};
pub use routes::{one_list, route_all, route_each};
pub use watch::{CountGate, HoldGate};
