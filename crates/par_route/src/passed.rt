//! What shows that a piece has passed the gate.

use crate::gate::Gate;

/// Shows that a piece has passed the gate, since only `through` makes one.
#[derive(Drop)]
pub(crate) struct Passed {
    _piece: u32,
}

impl Passed {
    /// Lets the piece with this number, from 1, pass the gate.
    pub(crate) fn through<G: Gate>(gate: &G, piece: u32) -> Passed {
        gate.pass(piece);
        Passed { _piece: piece }
    }
}
