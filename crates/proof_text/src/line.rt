//! What a line says.

use plane_geom::Point;
use proof_model::LabelRow;

/// What a line says.
#[derive(Clone, Copy)]
pub(crate) enum Line {
    /// A proof of this edge begins, with the claimed cost, or that no walk is legal.
    Edge { edge: u32, cost: Option<u64> },
    /// The next point of the claimed line.
    Corner(Point),
    /// The next row of labels.
    Row(LabelRow),
}
