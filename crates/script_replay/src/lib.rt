//! Scripts replayed on scenes: the reply to each command, and the session at the end.
#![tactic(auto)]

mod laws;
mod script;

pub use laws::{one_list_of_replies, replays_keep_origins};
pub use script::{Replayed, replay};
