//! The tests of the crates of nudging, from the order of runs to written lines.
//!
//! Coordinates are whole thousandths of a GML unit. East is +x and South is +y.
#![tactic(auto)]

#[cfg(test)]
mod certificates;
#[cfg(test)]
mod orders;
#[cfg(test)]
mod phases;
#[cfg(test)]
mod small;
#[cfg(test)]
mod solutions;
