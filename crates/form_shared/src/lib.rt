//! `shared`: the text on the paths that the routes of a scene share and on the crossings of its lines.
#![tactic(auto)]

mod laws;
mod sharing;

pub use laws::shares_come_to_one;
pub use sharing::share;
