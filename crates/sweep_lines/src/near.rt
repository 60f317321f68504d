//! Whether a coordinate is between two others, and whether the coordinate of a line is near a
//! rectangle.
ghost use Rattle.std.specs.Prelude.{◌≡◌};
ghost use Rattle.sweep_lines.specs.Kept.{is_near, is_within};

use plane_geom::{Line, Rect, Way};

/// Whether the line's coordinate is between the two sides of the rectangle across it, or on one of
/// them.
///
/// `lines_near` finds the kept lines for which this is true.
pub fn is_near(near: &Rect, line: &Line) -> bool
    ensures { result ≡ is_near near.now line.now }
{
    let (first, last) = match line.way {
        Way::Vertical => (near.left, near.right),
        Way::Horizontal => (near.top, near.bottom),
    };
    is_within(first, last, line.at)
}

/// Whether the coordinate is from `first` to `last`.
pub(crate) fn is_within(first: i64, last: i64, at: i64) -> bool
    ensures { result ≡ is_within first last at }
{
    first <= at && at <= last
}
