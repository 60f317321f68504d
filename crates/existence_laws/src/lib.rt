//! Laws on the definitions: that what they ask for exists (answers of tasks and of scenes, stale connectors, verdicts,
//! proposals, certificates, audits, readings of bytes, solutions of bundles, nudged lines, and shared paths), and what
//! arguments, proposals and diagrams are read as.
#![tactic(auto)]

mod inputs;
mod laws;

pub use inputs::{arguments_ask, scripts_have_proposals, trees_have_scenes};
pub use laws::{
    some_answer, some_answers, some_audit, some_least_proofs, some_nudged_lines, some_preview,
    some_proof_reading, some_reading, some_shared_paths, some_solution, some_stale_list,
    some_verdict,
};
