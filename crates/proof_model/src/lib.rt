//! Proofs of what a connector costs at least, when they prove a scene, and the law that they are
//! right.
//!
//! Lengths and costs are in thousandths of a GML unit.
#![tactic(auto)]

mod laws;
mod next;
mod proof;

pub use laws::{least_labels_prove, one_audit, proved_claims_hold, proved_scenes_hold};
pub use next::{Next, next_place};
pub use proof::{Claim, LabelRow, Proof, Rows};
