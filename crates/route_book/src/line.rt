//! The test whether a line meets a rectangle.
ghost use Rattle.std.specs.Prelude.{◌↔◌, IsTrue};
ghost use Rattle.scene_model.specs.Stale.{LineMeets};
ghost use Rattle.walk_model.specs.Line.{IsStraightLine};

use plane_geom::{Point, Rect};

/// Whether a step of the line through the corner points meets the rectangle. A segment between
/// equal points has no steps.
pub(crate) fn line_meets(rect: &Rect, points: &[Point]) -> bool
    requires { IsStraightLine points.now }
    ensures { IsTrue result ↔ LineMeets rect.now points.now }
{
    let Some((first, rest)) = points.split_first() else {
        return false;
    };
    let mut at = *first;
    for next in rest {
        if at != *next && rect.overlaps_area(at, *next) {
            return true;
        }
        at = *next;
    }
    false
}
