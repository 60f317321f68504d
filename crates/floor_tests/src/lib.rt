//! The tests of the crates from points up to the repair of visibility graphs.
//!
//! Coordinates are whole thousandths of a GML unit. East is +x and South is +y.
#![tactic(auto)]

#[cfg(test)]
mod crossings;
#[cfg(test)]
mod graphs;
#[cfg(test)]
mod intervals;
#[cfg(test)]
mod kept;
#[cfg(test)]
mod repairs;
#[cfg(test)]
mod small;
