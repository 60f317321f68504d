//! A session: a diagram's scene under transactions, undo and redo, with its current routes.
//!
//! Coordinates, lengths and costs are whole thousandths of a GML unit.
#![tactic(auto)]

mod commands;
mod present;
mod scenes;
mod session;
mod shares;
mod start;
mod turning;

pub use preview::{MOST_PROPOSALS, Previewed, Proposal};
pub use scene_model::SessionFault;
pub use session::Session;
pub use session_model::{commits_are_given_back, sessions_are_worlds};
