//! Tests of a session beside an editor: whole sessions over input and output in memory.

mod checks;
mod faults;
mod inputs;
mod labels;
mod runs;
mod scenes;
mod sessions;
