//! Proposed transactions: what a commit of their edits would give, all asked of one scene.
//!
//! Coordinates, lengths and costs are whole thousandths of a GML unit.
#![tactic(auto)]

mod answer;
mod laws;
mod pieces;
mod proposals;

pub use answer::Previewed;
pub use laws::{one_answer, previews_are_commits, refusals_hold_no_memory};
pub use proposals::{MOST_PROPOSALS, Proposal, preview, preview_alone};
