//! The text of proofs of cost, written and read.
//!
//! Lengths and costs are in thousandths of a GML unit.
#![tactic(auto)]

mod form;
mod laws;
mod line;
mod read;
mod reader;
mod value;
mod write;

pub use laws::{fronts_are_texts, read_back, read_once};
pub use read::{ProofFault, read_proofs};
pub use write::write_proofs;
