//! Walks on the plane: what a legal walk of a connector is, and what it costs.
//!
//! Lengths and costs are in thousandths of a GML unit.
#![tactic(auto)]

mod line;
mod order;
mod route;
mod steps;
mod stretch;
mod task;

pub use line::{cost_of, passed_between, passes, straight_by_steps, walks_are_no_shorter};
pub use order::{compare_routes, one_answer, one_first_walk, one_route, run_count, some_route};
pub use plane_geom::Points;
pub use route::{Answer, Route, WrittenRoute};
pub use task::{Choice, Choices, Task};
