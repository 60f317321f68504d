//! Rectangles: what lies inside them and what meets them.
ghost use Rattle.std.specs.Prelude.{◌≡◌, ◌↔◌, ◌<◌, ◌≤ℤ◌, ◌<ℤ◌, ℕ, IsTrue};
ghost use Rattle.plane_geom.specs.Point.{forward};
ghost use Rattle.plane_geom.specs.Rect.{IsOnTheWay, Meets, Overlaps, SomeStepMeets};
ghost use Rattle.plane_geom.specs.declared.point.Dir.{Dir};
ghost use Rattle.plane_geom.specs.declared.point.Point.{Point};
ghost use Rattle.plane_geom.specs.declared.rect.Rect.{Rect};

use crate::point::Point;

/// A rectangle with sides along the axes, in thousandths of a GML unit.
///
/// `left` is the lesser x and `top` the lesser y; the rectangle is empty where `left` is not less
/// than `right`, or `top` not less than `bottom`.
#[derive(Clone, Copy, Debug, PartialEq, Eq, Hash)]
pub struct Rect {
    pub left: i64,
    pub top: i64,
    pub right: i64,
    pub bottom: i64,
}

/// The open inside of a node's buffered box, which no route may enter except by a stub of that
/// node.
#[derive(Clone, Copy, Debug, PartialEq, Eq, Hash)]
pub struct Solid {
    pub node: i64,
    pub rect: Rect,
}

impl Rect {
    ghost use Rattle.plane_geom.specs.Rect.{HasInside, IsLeastThrough, IsNearestPoint, RectIsOnSheet, Meets, grown};
    ghost use Rattle.plane_geom.specs.Point.{IsStraight, PointIsOnSheet};

    /// The rectangle with each side moved out by `by` thousandths. Both rectangles lie on the
    /// sheet.
    pub fn grow(&self, by: i64) -> Rect
        requires within { RectIsOnSheet self.now }
        requires grown_within { RectIsOnSheet (grown self.now by) }
        ensures { result ≡ grown self.now by }
    {
        let Rect {
            left,
            top,
            right,
            bottom,
        } = *self;
        Rect {
            left: left - by,
            top: top - by,
            right: right + by,
            bottom: bottom + by,
        }
    }

    /// Whether the point lies inside the open rectangle.
    pub fn has_inside(&self, p: Point) -> bool
        ensures { IsTrue result ↔ HasInside self.now p }
    {
        let Rect {
            left,
            top,
            right,
            bottom,
        } = *self;
        is_between(left, p.x, right) && is_between(top, p.y, bottom)
    }

    /// The least length of a way from `a` to `b` that passes through a point of the closed
    /// rectangle, in thousandths.
    ///
    /// The point of the rectangle that is nearest to `a` is on such a way. All lie on the sheet,
    /// and the rectangle has a point: `left` is at most `right` and `top` at most `bottom`.
    pub fn l1_through(&self, a: Point, b: Point) -> i64
        requires within { RectIsOnSheet self.now }
        requires from_within { PointIsOnSheet a }
        requires to_within { PointIsOnSheet b }
        requires wide { self.now.left ≤ℤ self.now.right }
        requires high { self.now.top ≤ℤ self.now.bottom }
        ensures { IsLeastThrough self.now a b result }
    {
        let nearest = self.nearest_to(a);
        (a.distance(nearest) + nearest.distance(b)) as i64
    }

    /// The point of the closed rectangle that is nearest to the other point.
    fn nearest_to(&self, p: Point) -> Point
        requires within { RectIsOnSheet self.now }
        requires point_within { PointIsOnSheet p }
        requires wide { self.now.left ≤ℤ self.now.right }
        requires high { self.now.top ≤ℤ self.now.bottom }
        ensures on_the_way { IsNearestPoint self.now p result }
        ensures on_sheet { PointIsOnSheet result }
    {
        let Rect {
            left,
            top,
            right,
            bottom,
        } = *self;
        Point {
            x: nearest(left, p.x, right),
            y: nearest(top, p.y, bottom),
        }
    }

    /// Whether the closed straight segment from `a` to `b` has a point inside the open rectangle.
    ///
    /// A walk along a side meets nothing, and neither does any segment if the rectangle is empty.
    /// All lie on the sheet, and the segment is vertical, horizontal or a single point.
    pub fn meets(&self, a: Point, b: Point) -> bool
        requires within { RectIsOnSheet self.now }
        requires from_within { PointIsOnSheet a }
        requires to_within { PointIsOnSheet b }
        requires straight { IsStraight a b }
        ensures { IsTrue result ↔ Meets self.now a b }
    {
        self.overlaps_area(a, b)
    }

    /// Whether the closed rectangle with the corners `a` and `b` has a point inside the open
    /// rectangle.
    pub fn overlaps_area(&self, a: Point, b: Point) -> bool
        ensures { IsTrue result ↔ Meets self.now a b }
    {
        let Rect {
            left,
            top,
            right,
            bottom,
        } = *self;
        overlaps(left, right, a.x, b.x) && overlaps(top, bottom, a.y, b.y)
    }
}

/// A straight segment meets a rectangle exactly where one of its unit steps does.
pub fn meets_by_steps()
    ensures { (r : Rect) (p : Point) (d : Dir) (n : ℕ) → 0 < n →
        Meets r p (forward d n p) ↔ SomeStepMeets r p d n }
{}

/// The number from `low` to `high` that is nearest to `z`. It is between `z` and every other number
/// from `low` to `high`.
fn nearest(low: i64, z: i64, high: i64) -> i64
    requires { low ≤ℤ high }
    ensures { IsOnTheWay low z high result }
{
    z.max(low).min(high)
}

/// Whether `z` is greater than `low` and less than `high`.
fn is_between(low: i64, z: i64, high: i64) -> bool
    ensures { IsTrue result ↔ (low <ℤ z) × (z <ℤ high) }
{
    low < z && z < high
}

/// Whether the open interval from `low` to `high` and the closed one between `a` and `b` overlap.
fn overlaps(low: i64, high: i64, a: i64, b: i64) -> bool
    ensures { IsTrue result ↔ Overlaps low high a b }
{
    let first = a.min(b);
    let last = a.max(b);
    low < high && first < high && low < last
}
