//! A scene and commands, generated from a seed, routed, and summed up.
//!
//! Coordinates and sizes are whole thousandths of a GML unit.
#![tactic(auto)]

mod commands;
mod draws;
mod laws;
mod scene;
mod seed;
mod summary;
mod sums;

pub use commands::made_commands;
pub use laws::{first_draw_of_one, seeds_come_to_one};
pub use scene::made_scene;
pub use seed::make;
pub use summary::Summary;
