//! `preview`: the answers to the proposed transactions of a script, from its commands to the bytes that are written.
#![tactic(auto)]

mod blocks;
mod laws;
mod report;
mod script;

pub use laws::proposals_come_to_one;
pub use script::propose;
