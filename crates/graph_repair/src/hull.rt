//! A rectangle around the differences of two floors.
ghost use Rattle.std.specs.Prelude.{◌≡◌, IsTrue, Contains};
ghost use Rattle.plane_geom.specs.declared.point.Point.{Point};
ghost use Rattle.plane_geom.specs.Rect.{HasWithin};
ghost use Rattle.graph_repair.specs.Hull.{AreListedOrWithin, IsAloneWithin};

use plane_geom::{Floor, Point, Rect, Solid};

/// The empty rectangle from which a hull grows.
const NOWHERE: Rect = Rect {
    left: i64::MAX,
    top: i64::MAX,
    right: i64::MIN,
    bottom: i64::MIN,
};

/// Something on a floor: a solid or an anchor.
trait Placed {
    ghost use Rattle.std.specs.Prelude.{◌≡◌, ◌↔◌, IsTrue};
    ghost use Rattle.plane_geom.specs.declared.point.Point.{Point};

    // The two corners, in definitions.
    ghost near_of: { Self → Point };

    ghost far_of: { Self → Point };

    /// The corner with the lesser coordinates.
    fn near_corner(&self) -> Point
        ensures { result ≡ near_of self.now };

    /// The corner with the greater coordinates.
    fn far_corner(&self) -> Point
        ensures { result ≡ far_of self.now };

    /// Whether the two are equal.
    fn is_same(&self, other: &Self) -> bool
        ensures { IsTrue result ↔ (self.now ≡ other.now) };
}

impl Placed for Solid {
    ghost use Rattle.sweep_lines.specs.Bars.{far_corner, near_corner};

    ghost near_of = { λ s. near_corner s.rect };

    ghost far_of = { λ s. far_corner s.rect };

    fn near_corner(&self) -> Point {
        Point {
            x: self.rect.left,
            y: self.rect.top,
        }
    }

    fn far_corner(&self) -> Point {
        Point {
            x: self.rect.right,
            y: self.rect.bottom,
        }
    }

    fn is_same(&self, other: &Solid) -> bool {
        self == other
    }
}

impl Placed for Point {
    ghost near_of = { λ p. p };

    ghost far_of = { λ p. p };

    fn near_corner(&self) -> Point {
        *self
    }

    fn far_corner(&self) -> Point {
        *self
    }

    fn is_same(&self, other: &Point) -> bool {
        self == other
    }
}

/// A rectangle that contains everything that only one of the two floors has. It is small where one
/// node changes.
pub fn hull_of_difference(old: &Floor, new: &Floor) -> Rect
    ensures gone { IsAloneWithin result old.now new.now }
    ensures come { IsAloneWithin result new.now old.now }
{
    let (solids, other_solids) = (old.solids.as_slice(), new.solids.as_slice());
    let (anchors, other_anchors) = (old.anchors.as_slice(), new.anchors.as_slice());
    let hull = cover_missing(NOWHERE, solids, other_solids);
    let hull = cover_missing(hull, other_solids, solids);
    let hull = cover_missing(hull, anchors, other_anchors);
    cover_missing(hull, other_anchors, anchors)
}

/// The hull, widened to contain the items that are not found among the others at a matching place.
fn cover_missing<T: Placed>(hull: Rect, items: &[T], others: &[T]) -> Rect
    ensures wider { (p : Point) → HasWithin hull p → HasWithin result p }
    ensures covered { AreListedOrWithin T.near_of T.far_of result items.now others.now }
{
    let mut hull = hull;
    for (place, item) in items.iter().enumerate() {
        if !stands_alike(others, item, place, items.len()) {
            hull = widened(widened(hull, item.near_corner()), item.far_corner());
        }
    }
    hull
}

/// Whether the item is among the others, as far from the front or from the back as in a list of
/// this length.
///
/// If one list is the other with one part changed, inserted or removed, this holds for each other
/// item.
fn stands_alike<T: Placed>(others: &[T], item: &T, place: usize, len: usize) -> bool
    ensures { IsTrue result → Contains others.now item.now }
{
    // Where the other list is too short for it, this wraps to a place past its end.
    let from_back = others.len().wrapping_sub(len).wrapping_add(place);
    stands_at(others, item, place) || stands_at(others, item, from_back)
}

/// Whether the item is at the place.
fn stands_at<T: Placed>(others: &[T], item: &T, place: usize) -> bool
    ensures { IsTrue result → Contains others.now item.now }
{
    match others.get(place) {
        Some(other) => item.is_same(other),
        None => false,
    }
}

/// The least rectangle that contains the hull and the point.
fn widened(hull: Rect, p: Point) -> Rect
    ensures has { HasWithin result p }
    ensures wider { (q : Point) → HasWithin hull q → HasWithin result q }
{
    Rect {
        left: hull.left.min(p.x),
        top: hull.top.min(p.y),
        right: hull.right.max(p.x),
        bottom: hull.bottom.max(p.y),
    }
}
