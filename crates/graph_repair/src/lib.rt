//! Local repair of a visibility graph: only the lines and crossings that change are removed and
//! added.
#![tactic(auto)]

mod compare;
mod difference;
mod exchange;
mod hull;
mod laws;
mod repair;

pub use difference::plan;
pub use exchange::{apply, revert};
pub use hull::hull_of_difference;
pub use laws::one_write_count;
pub use repair::Repair;
