//! Lines, and the floor on which the lines of a visibility graph are drawn.
ghost use Rattle.std.specs.Prelude.{◌≡◌, ◌↔◌, ◌≤ℤ◌, IsTrue};
ghost use Rattle.plane_geom.specs.Floor.{Holds, IsFreePiece, IsKept, IsLongestFreePiece, IsWide, AreOnOneWholeLine};
ghost use Rattle.plane_geom.specs.Order.{stands_before};
ghost use Rattle.plane_geom.specs.declared.floor.Floor.{Floor};
ghost use Rattle.plane_geom.specs.declared.floor.Line.{Line};
ghost use Rattle.plane_geom.specs.declared.point.Point.{Point};

use crate::list::{Points, Solids};
use crate::point::Way;
use std::alloc::{AllocError, Global};

/// A piece of a whole vertical or horizontal line, at the coordinate `at`, from `lo` to `hi`.
///
/// In thousandths of a GML unit. `lo` is at most `hi`; where both are equal, it is a single point.
#[derive(Clone, Copy, Debug, PartialEq, Eq, Hash)]
pub struct Line {
    pub way: Way,
    pub at: i64,
    pub lo: i64,
    pub hi: i64,
}

impl Line {
    /// Whether the line comes before the other one: vertical lines first, then by coordinate, then
    /// by begin.
    pub fn stands_before(&self, other: &Line) -> bool
        ensures { result ≡ stands_before self.now other.now }
    {
        match (self.way, other.way) {
            (Way::Vertical, Way::Horizontal) => true,
            (Way::Horizontal, Way::Vertical) => false,
            _ => self.at < other.at || (self.at == other.at && self.lo < other.lo),
        }
    }

    /// Whether the two lines are equal.
    pub fn is_same(&self, other: &Line) -> bool
        ensures { IsTrue result ↔ (self.now ≡ other.now) }
    {
        self == other
    }
}

/// The input of a visibility graph: the solids, and as anchors the ports of all pins of all nodes
/// and the checkpoints of all connectors.
#[derive(Debug, Drop)]
pub struct Floor {
    pub solids: Solids,
    pub anchors: Points,
}

impl Floor {
    ghost use Rattle.std.specs.Prelude.{◌≡◌, IfOk};

    /// A copy of the floor. The only error is out of memory.
    pub fn copy(&self, alloc: Global) -> Result<Floor, AllocError>
        ensures { IfOk result (λ f. f ≡ self.now) }
    {
        Ok(Floor {
            solids: self.solids.copy(alloc)?,
            anchors: self.anchors.copy(alloc)?,
        })
    }
}

/// Two kept lines of one whole line that share a point are equal.
pub fn kept_lines_apart()
    ensures { (floor : Floor) (l m : Line) (p : Point) → IsKept floor l → IsKept floor m →
        AreOnOneWholeLine l m → Holds l p → Holds m p → l ≡ m }
{}

/// Each kept line is a wide one.
pub fn kept_lines_are_wide()
    ensures { (floor : Floor) (l : Line) → IsKept floor l → IsWide floor l }
{}

/// Each free piece lies in a longest one.
pub fn free_pieces_have_longest()
    ensures { (floor : Floor) (l : Line) → IsFreePiece floor l →
        (m : Line) × IsLongestFreePiece floor m × AreOnOneWholeLine m l × (m.lo ≤ℤ l.lo) × (l.hi ≤ℤ m.hi) }
{}
