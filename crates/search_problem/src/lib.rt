//! What a search for a first walk reads: the problem with its ends and lower bounds, and the queue of its candidates.
//!
//! Lengths and costs are in thousandths of a GML unit.
#![tactic(auto)]

mod ends;
mod origin;
mod problem;
mod queue;
mod stage;
mod stubs;

pub use ends::{Ending, Entry};
pub use origin::Origin;
pub use problem::{DIRS, MOST_COST, MOST_RUNS, NOTHING, Problem};
pub use queue::{Candidate, Queue};
pub use stage::stage_at;
pub use stubs::SortedSolids;
