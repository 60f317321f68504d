//! Reading a diagram: the tree of a GML file as exactly its scene, or exactly its first fault.
//!
//! Lengths in a diagram are in units, and become whole thousandths.
#![tactic(auto)]

mod edges;
mod fault;
mod laws;
mod lines;
mod nodes;
mod pins;
mod scene;
mod settings;
mod values;

pub use fault::{DiagramFault, Part};
pub use laws::{first_faults_count, numbers_agree, others_are_passed_over};
pub use lines::line_of;
pub use scene::scene_of;
