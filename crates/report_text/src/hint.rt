//! What people are told besides the output.

/// A place in a text. Line and column count from 1, and a column is a byte.
#[derive(Clone, Copy, Debug, PartialEq, Eq)]
pub struct Place {
    pub line: usize,
    pub column: usize,
}

/// How many connectors have no route, and how many connectors there are.
#[derive(Clone, Copy, Debug, PartialEq, Eq)]
pub struct Unrouted {
    pub without: usize,
    pub all: usize,
}

/// What people are told besides the status and the output.
#[derive(Clone, Copy, Debug, PartialEq, Eq)]
pub enum Hint {
    /// Nothing more.
    Nothing,
    /// There is no argument, or the first one names no subcommand.
    NoCommand,
    /// The diagram is no GML, or too deep, at this place.
    At(Place),
    /// Some connectors of the scene at the end of the script have no route.
    Unrouted(Unrouted),
}
