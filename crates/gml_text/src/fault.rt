//! The faults for which bytes are refused.

use thiserror::Error;

/// The reason why bytes were not read as a document.
#[derive(Clone, Copy, Debug, PartialEq, Eq, Error)]
pub enum GmlFault {
    /// The bytes are not valid GML: the first `at` bytes begin a document, and no more do.
    #[error("no document goes on so at byte {at}")]
    Syntax { at: u64 },
    /// The byte at the offset `at`, from 0, opens a list inside 64 open ones.
    #[error("the list at byte {at} is too deep")]
    TooDeep { at: u64 },
    /// Out of memory.
    #[error("out of memory")]
    Memory,
}
