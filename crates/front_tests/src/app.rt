//! Tests of the program's runs that need a folder, a sink or a gate of their own.

mod faults;
mod gates;
mod hints;
mod rows;
mod runs;
mod sizes;
