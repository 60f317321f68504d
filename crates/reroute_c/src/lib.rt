//! Exports to C: a session of the engine behind a handle that lies in its caller's room.
//!
//! The header has the contracts in plain words. Lengths are whole thousandths of a GML unit.
#![tactic(auto)]

mod calls;
mod checks;
mod counts;
mod edits;
mod fault;
mod files;
mod handle;
mod labels;
mod lines;
mod scene;
