//! The history of transactions, of bounded depth.
#![tactic(auto)]

mod log;
mod step;

pub use log::UndoLog;
pub use step::Step;
