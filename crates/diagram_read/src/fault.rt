//! The faults of a diagram.

ghost use Rattle.std.specs.Prelude.{◌≡◌};
ghost use Rattle.diagram_read.specs.declared.fault.DiagramFault.TheVariants.{Memory};

use std::alloc::{AllocError, AllocFailed};
use thiserror::Error;

/// A part of a diagram.
#[derive(Clone, Copy, Debug, PartialEq, Eq)]
pub enum Part {
    Router,
    Node,
    Edge,
    Pin,
    Via,
}

/// Why a document is not a valid diagram, or why the line of an edge cannot be read.
///
/// A place counts from 1 among the `node` lists or the `edge` lists; the place of the router is 0.
#[derive(Clone, Copy, Debug, PartialEq, Eq, Error)]
pub enum DiagramFault {
    /// There is no `graph` that is a list.
    #[error("there is no graph")]
    NoGraph,
    /// The node has no id of at most 18 digits.
    #[error("node {place} has no id")]
    BadId { place: u32 },
    /// An earlier node has the same id.
    #[error("node {place} has the id of an earlier one")]
    SameId { place: u32 },
    /// The node's `graphics` is not a list, or has no `x` or no `y`.
    #[error("node {place} has no place")]
    NoPlace { place: u32 },
    /// A value is not a number.
    #[error("a value of {part:?} {place} is no number")]
    BadNumber { part: Part, place: u32 },
    /// An end of the edge is not a node, or a class is not one of the node's.
    #[error("edge {place} has a bad end")]
    BadEnd { place: u32 },
    /// A number is outside its limits.
    #[error("a value of {part:?} {place} is out of range")]
    OutOfRange { part: Part, place: u32 },
    /// There is one more than the limit allows.
    #[error("there are too many: {part:?}")]
    TooMany { part: Part },
    /// A pin of the node is invalid.
    #[error("node {place} has a bad pin")]
    BadPin { place: u32 },
    /// A checkpoint of the edge is invalid.
    #[error("edge {place} has a bad checkpoint")]
    BadVia { place: u32 },
    /// The weight of the edge is not from 1 to 4.
    #[error("edge {place} has a bad weight")]
    BadWeight { place: u32 },
    /// Out of memory.
    #[error("out of memory")]
    Memory,
}

impl From<AllocError> for DiagramFault {
    ghost from_gives = { λ _ e. e ≡ Memory };

    fn from(_: AllocError) -> Self {
        DiagramFault::Memory
    }
}

impl<T: Drop> From<AllocFailed<T>> for DiagramFault {
    ghost from_gives = { λ _ e. e ≡ Memory };

    fn from(_: AllocFailed<T>) -> Self {
        DiagramFault::Memory
    }
}
