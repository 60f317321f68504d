//! The verdict on a drawn line: its cost, or the first rule that it breaks.
#![tactic(auto)]

mod choice;
mod hit;
mod run;
mod steps;
mod straight;
mod verdict;

pub use verdict::{Breach, check, one_verdict};
