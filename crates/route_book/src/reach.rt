//! The test whether the ways of a connector come near to a rectangle within a cost.
ghost use Rattle.std.specs.Prelude.{◌≡◌, ◌↔◌, ◌+◌, ◌*◌, ◌^◌, ◌<◌, ◌≤◌, ◌∷◌, ◌++◌, [], All, IsTrue, length};
ghost use Rattle.plane_geom.specs.Point.{PointIsOnSheet};
ghost use Rattle.route_book.specs.Reach.{AreParts, IsBox, IsNear, IsNearBetween, IsNearFrom, IsShortestBy};
ghost use Rattle.scene_model.specs.Stale.{way_length};
ghost use Rattle.scene_model.specs.Valid.{IsPlaced};

use plane_geom::{Point, Rect};
use scene_store::{Edge, Node, Pin};

/// The length of a way, and its least length if it passes a rectangle.
#[derive(Clone, Copy)]
struct Lengths {
    straight: u64,
    by: u64,
}

/// The lengths of the way from `from` through the points `via` to `to`.
///
/// A way past the rectangle passes it on its first leg, or on one of the others.
fn way_lengths(rect: &Rect, from: Point, via: &[Point], to: Point) -> Lengths
    requires rect { IsBox rect.now }
    requires from { PointIsOnSheet from }
    requires via { All PointIsOnSheet via.now }
    requires few { length via.now ≤ 4 }
    requires to { PointIsOnSheet to }
    ensures straight { result.straight ≡ way_length from (via.now ++ to ∷ []) }
    ensures by { IsShortestBy rect.now from (via.now ++ to ∷ []) result.by }
    ensures short { result.straight ≤ 8 * 10 ^ 9 * (length via.now + 1) }
    ensures short_by { result.by ≤ 8 * 10 ^ 9 * (length via.now + 2) }
{
    match via {
        [] => Lengths {
            straight: from.distance(to),
            by: rect.l1_through(from, to).unsigned_abs(),
        },
        [next, others @ ..] => {
            let step = from.distance(*next);
            let rest = way_lengths(rect, *next, others, to);
            let here = rect.l1_through(from, *next).unsigned_abs() + rest.straight;
            Lengths {
                straight: step + rest.straight,
                by: here.min(step + rest.by),
            }
        }
    }
}

/// A connector with its nodes, and a cost.
#[derive(Clone, Copy)]
pub(crate) struct Reach<'a> {
    pub source: &'a Node,
    pub target: &'a Node,
    pub edge: &'a Edge,
    pub cost: u64,
}

impl<'a> Reach<'a> {
    /// Whether a way from one pin to the other may touch the closed rectangle within the cost.
    fn is_near(&self, rect: &Rect, start: Pin, end: Pin) -> bool
        requires parts { AreParts self.now.source.now self.now.target.now self.now.edge.now }
        requires rect { IsBox rect.now }
        requires start { IsPlaced self.now.source.now start }
        requires end { IsPlaced self.now.target.now end }
        ensures { IsTrue result ↔ IsNear self.now.source.now self.now.target.now self.now.edge.now self.now.cost rect.now start end }
    {
        let from = self.source.place_of(start);
        let to = self.target.place_of(end);
        let way = way_lengths(rect, from, self.edge.via.as_slice(), to);
        start.cost.unsigned_abs() + end.cost.unsigned_abs() + way.by <= self.cost
    }

    /// Whether such a way begins at the pin and ends at a pin of the class.
    fn is_near_from(&self, rect: &Rect, start: Pin) -> bool
        requires parts { AreParts self.now.source.now self.now.target.now self.now.edge.now }
        requires rect { IsBox rect.now }
        requires start { IsPlaced self.now.source.now start }
        ensures { IsTrue result ↔ IsNearFrom self.now.source.now self.now.target.now self.now.edge.now self.now.cost rect.now start }
    {
        let class = self.edge.to_class;
        for end in self.target.pins_among(class) {
            if end.class == class && self.is_near(rect, start, *end) {
                return true;
            }
        }
        false
    }

    /// Whether a way of the connector may touch the closed rectangle within the cost.
    pub(crate) fn is_near_between(&self, rect: &Rect) -> bool
        requires parts { AreParts self.now.source.now self.now.target.now self.now.edge.now }
        requires rect { IsBox rect.now }
        ensures { IsTrue result ↔ IsNearBetween self.now.source.now self.now.target.now self.now.edge.now self.now.cost rect.now }
    {
        let class = self.edge.from_class;
        for start in self.source.pins_among(class) {
            if start.class == class && self.is_near_from(rect, *start) {
                return true;
            }
        }
        false
    }
}
