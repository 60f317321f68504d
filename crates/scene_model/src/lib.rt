//! The contents of a scene, its edits, and its meaning for routing.
//!
//! Coordinates, lengths and costs are whole thousandths of a GML unit.
#![tactic(auto)]

mod edge;
mod edit;
mod fault;
mod laws;
mod limits;
mod node;
mod pin;
mod settings;
mod shape;

pub use edge::{Edge, Via};
pub use edit::{Command, Edit, Edits, Inverse, Inverses};
pub use fault::{SceneFault, SessionFault};
pub use laws::{
    chains_lead_back, edits_keep_valid, edits_take_back, floors_fit, floors_hold_tasks,
    loads_keep_valid, one_list_of_answers, one_stale_list, scenes_stay_valid,
};
pub use limits::{half, is_off, is_outside};
pub use node::Node;
pub use pin::{Dirs, Pin, Pins, any_of_class};
pub use settings::{Setting, Settings};
