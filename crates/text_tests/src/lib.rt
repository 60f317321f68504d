//! Tests of the crates that read and write text, and of scenes read from diagrams and written back: rows that use only
//! public calls.
#![tactic(auto)]

#[cfg(test)]
mod arguments;
#[cfg(test)]
mod certificates;
#[cfg(test)]
mod documents;
#[cfg(test)]
mod numbers;
#[cfg(test)]
mod outside;
#[cfg(test)]
mod reading;
#[cfg(test)]
mod scripts;
#[cfg(test)]
mod writing;
