//! The faults for which edits and commands are refused.

use thiserror::Error;

/// Why an edit is refused.
#[derive(Clone, Copy, Debug, PartialEq, Eq, Error)]
pub enum SceneFault {
    #[error("no box has the id {id}")]
    UnknownNode { id: i64 },
    #[error("no connector has the number {number}")]
    UnknownEdge { number: u32 },
    #[error("a box has the id {id}")]
    NodeExists { id: i64 },
    #[error("connector {edge} ends at the box")]
    NodeInUse { edge: u32 },
    #[error("both ends are the box {id}")]
    SameNode { id: i64 },
    #[error("value {word} of the edit is out of range")]
    OutOfRange { word: u32 },
    #[error("pin {place} is outside its box")]
    PinOutside { place: u32 },
    #[error("no pin has the class {class}")]
    UnknownPinClass { class: u32 },
    #[error("nothing is at place {place}")]
    NoSuchPlace { place: u32 },
    #[error("there are {limit} already")]
    TooMany { limit: u32 },
    #[error("connector {edge} needs the pin")]
    PinInUse { edge: u32 },
    #[error("out of memory")]
    Memory,
}

/// Why a command of a session is refused.
#[derive(Clone, Copy, Debug, PartialEq, Eq, Error)]
pub enum SessionFault {
    #[error("no transaction is open")]
    NoTransaction,
    #[error("a transaction is open")]
    AlreadyOpen,
    #[error("there is nothing to undo")]
    NothingToUndo,
    #[error("there is nothing to redo")]
    NothingToRedo,
    #[error("{0}")]
    Edit(SceneFault),
    #[error("out of memory")]
    Memory,
}
