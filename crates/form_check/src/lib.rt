//! `check`: the finding on the line of each edge of a diagram, as text.
#![tactic(auto)]

mod checking;
mod laws;

pub use checking::check_lines;
pub use laws::checks_come_to_one;
