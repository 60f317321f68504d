//! Exact thousandths: decimal numbers as they are spelled, read and written in whole thousandths.
//!
//! `read_milli` reads a number with a point and an exponent, `read_whole` only a sign and digits,
//! as in ids. `write_milli` and `push_milli` write thousandths with three digits after the decimal
//! point.
#![tactic(auto)]

mod digits;
mod laws;
mod milli;
mod numeral;
mod split;
mod whole;

pub use laws::{number_is_read, read_computes, read_once, rounded_is_nearest, written_is_read};
pub use milli::{MilliFault, push_milli, read_milli, write_milli};
pub use whole::read_whole;
