//! Tests of what stands on sessions, through public calls: the program's runs, and sessions beside an editor.
#![tactic(auto)]

#[cfg(test)]
mod app;
#[cfg(test)]
mod live;
