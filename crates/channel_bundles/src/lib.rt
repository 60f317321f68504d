//! The runs of a phase, how far each may move, and which of them keep their distance together.
//!
//! Coordinates are whole thousandths of a GML unit.
#![tactic(auto)]

mod bare;
mod channel;
mod few;
mod forest;
mod groups;
mod laws;
mod leaders;
mod limits;
mod links;
mod member;
mod route;
mod shares;
mod walls;

pub use channel::{RunBundle, bundles, few_bundles};
pub use laws::reduced_connects;
pub use member::Member;
pub use route::{PhaseRoute, RouteAnchors};
