//! The audit of certificates: whether proofs prove what a scene's connectors cost at least.
//!
//! Lengths and costs are in thousandths of a GML unit.
#![tactic(auto)]

mod claim;
mod connectors;
mod crossing;
mod ends;
mod fault;
mod labels;
mod laws;
mod line;
mod moves;
mod rows;
mod task;

pub use connectors::audit;
pub use fault::AuditFault;
pub use proof_model::{Claim, LabelRow, Proof, Rows};
pub use proof_search::prove;
pub use proof_text::{ProofFault, read_proofs, write_proofs};
