//! Tests of walks, of the search for first walks, and of verdicts: rows that use only public calls.
#![tactic(auto)]

#[cfg(test)]
mod choices;
#[cfg(test)]
mod floors;
#[cfg(test)]
mod found;
#[cfg(test)]
mod pieces;
#[cfg(test)]
mod scenes;
#[cfg(test)]
mod searches;
#[cfg(test)]
mod ties;
#[cfg(test)]
mod verdicts;
#[cfg(test)]
mod walks;
