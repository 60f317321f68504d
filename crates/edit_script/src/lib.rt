//! Scripts: bytes read as the commands of a session.
//!
//! A script is read line by line. Numbers are in units, and become whole thousandths.
#![tactic(auto)]

mod forms;
mod laws;
mod script;
mod values;

pub use laws::{line_numbers_rise, scripts_have_directions};
pub use script::{commands, words};
pub use values::{count_of, id_of, number_of};
