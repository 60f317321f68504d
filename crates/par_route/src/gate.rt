//! The gate that each piece passes before it searches.

/// A gate that each piece of the tasks passes once, before its first search.
///
/// A gate may delay a piece; a test does so to see that another piece runs at the same time.
pub trait Gate: Sync {
    /// Returns when the piece with this number, from 1, may pass.
    fn pass(&self, piece: u32);
}

/// The gate that delays no piece.
#[derive(Clone, Copy, Debug)]
pub struct OpenGate;

impl Gate for OpenGate {
    fn pass(&self, _piece: u32) {}
}
