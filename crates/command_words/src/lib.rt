//! The arguments of the command line, and what they ask for.
#![tactic(auto)]

mod form;
mod matches;
mod read;
mod values;

pub use form::Form;
pub use read::read_words;
