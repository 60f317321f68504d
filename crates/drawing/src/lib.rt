//! What each front holds: a session, the document that its scenes come from, labels, and the lines that were reported.
//!
//! Coordinates are whole thousandths of a GML unit. No call starts a thread but those that have `workers`.
#![tactic(auto)]

mod asking;
mod changes;
mod checks;
mod commands;
mod drawing;
mod fault;
mod labels;
mod lines;
mod reconnect;
mod script;

pub use asking::Compared;
pub use drawing::Drawing;
pub use fault::OpenFault;
pub use gml_scene::LabelFault;
pub use labels::Labelled;
pub use reconnect::End;
pub use script::{Stopped, Why};
