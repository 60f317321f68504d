//! The lines of an arena by number, each with its crossings in order, in flat lists that are made
//! once and read often.
//!
//! Coordinates are whole thousandths of a GML unit. East is +x and South is +y.
#![tactic(auto)]

mod columns;
mod laws;
mod lists;
mod parts;
mod rows;
mod stop;

pub use laws::{further_is_later, one_number, stops_in_order};
pub use lists::LineLists;
pub use stop::{CrossNumber, Stop};
