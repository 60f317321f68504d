//! The scene: look-ups of its nodes and edges in constant time, and the edits that keep it valid.
//!
//! Coordinates, lengths and costs are whole thousandths of a GML unit.
#![tactic(auto)]

mod routing;
mod scene;

pub use scene::Scene;
pub use scene_model::{
    Command, Dirs, Edge, Edit, Edits, Inverse, Inverses, Node, Pin, Pins, SceneFault, SessionFault,
    Setting, Settings, Via,
};
