//! The engine of a session beside an editor: the reply to each line that the editor writes, and the loop that serves.
#![tactic(auto)]

mod change;
mod checks;
mod form;
mod laws;
mod line;
mod live;
mod reconnect;
mod reply;
mod request;
mod scene;
mod serving;
mod text;
mod why;

pub use laws::{changes_keep_clients, diagrams_stay, previews_are_commits};
pub use live::Live;
pub use reply::Said;
pub use request::Request;
pub use serving::{End, ServeFault, serve};
