//! A scene and its routes written back into the tree of the diagram that the scene comes from.
//!
//! `put_routes` keeps everything that the scene does not change: bytes of numbers, keys that have
//! no meaning, the order of all pairs. New text has lengths in units with three digits after the
//! decimal point.
#![tactic(auto)]

mod changes;
mod copies;
mod edges;
mod forms;
mod labels;
mod laws;
mod nodes;
mod printing;
mod settings;
mod tree;

pub use diagram_read::{
    DiagramFault, Part, first_faults_count, line_of, numbers_agree, others_are_passed_over,
    scene_of,
};
pub use forms::letters_of;
pub use labels::{Label, LabelFault, Labels};
pub use laws::{edits_keep_origins, own_scenes_fit};
pub use printing::{printed_diagram, push_diagram};
pub use tree::put_routes;
