//! Tests of the calls of scenes: their parts, their edits, transactions and the history.
#![tactic(auto)]

#[cfg(test)]
mod copies;
#[cfg(test)]
mod history;
#[cfg(test)]
mod scenes;
#[cfg(test)]
mod transactions;
