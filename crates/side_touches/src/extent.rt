//! Extents along whole lines.
ghost use Rattle.std.specs.Prelude.{◌≡◌, ◌↔◌, ◌⊎◌, ◌≤ℤ◌, ℤ, IsTrue, IsSomeAnd};
ghost use Rattle.std.specs.Int.{int_min};
ghost use Rattle.plane_geom.specs.Point.{IsCoordinate};
ghost use Rattle.side_touches.specs.Extents.{IsHull, IsLastPlace};

use plane_geom::{Dir, Line};

/// A closed interval along a whole line.
#[derive(Clone, Copy)]
pub struct Extent {
    pub lo: i64,
    pub hi: i64,
}

/// The hull of no extents: it begins beyond the sheet, whichever way one goes.
const NOTHING: Extent = Extent {
    lo: i64::MAX,
    hi: i64::MIN,
};

impl Extent {
    ghost use Rattle.side_touches.specs.Extents.{begin_in, end_in, joined};
    ghost use Rattle.side_touches.specs.Sides.{is_met_by};

    /// Whether one who goes in the heading reaches the extent up to `at`.
    pub fn begins_by(self, heading: Dir, at: i64) -> bool
        requires { IsCoordinate at }
        ensures { IsTrue result ↔ (begin_in heading self ≤ℤ at) }
    {
        match heading {
            Dir::East | Dir::South => self.lo <= at,
            Dir::West | Dir::North => -at <= self.hi,
        }
    }

    /// How far on the extent ends for one who goes in the heading, and `at` where it ends beyond.
    fn end_by(self, heading: Dir, at: i64) -> i64
        requires { IsCoordinate at }
        ensures { result ≡ int_min (end_in heading self) at }
    {
        match heading {
            Dir::East | Dir::South => self.hi.min(at),
            Dir::West | Dir::North => -self.lo.max(-at),
        }
    }

    /// Whether the line, if it runs along the extent, shares a point with it.
    pub fn is_met_by(self, line: &Line) -> bool
        ensures { result ≡ is_met_by line.now self }
    {
        line.lo <= self.hi && self.lo <= line.hi
    }

    /// The least extent that has both within.
    fn join(self, other: Extent) -> Extent
        ensures { result ≡ joined self other }
    {
        Extent {
            lo: self.lo.min(other.lo),
            hi: self.hi.max(other.hi),
        }
    }
}

/// The hull of the extents.
pub fn hull(extents: &[Extent]) -> Extent
    ensures { IsHull extents.now result }
{
    let mut hull = NOTHING;
    for extent in extents {
        hull = hull.join(*extent);
    }
    hull
}

/// The last place, up to `at`, from which one who goes on in the heading up to `at` reaches one
/// of the extents.
pub fn last_place(extents: &[Extent], heading: Dir, at: i64) -> Option<i64>
    requires { IsCoordinate at }
    ensures { IsLastPlace heading at extents.now result }
{
    let mut last = None;
    for extent in extents {
        if extent.begins_by(heading, at) {
            last = Some(further(last, extent.end_by(heading, at)));
        }
    }
    last
}

/// The greater one of the two.
fn further(last: Option<i64>, end: i64) -> i64
    ensures { (z : ℤ) → (z ≤ℤ result) ↔ (IsSomeAnd last (λ l. z ≤ℤ l) ⊎ (z ≤ℤ end)) }
{
    match last {
        Some(last) => last.max(end),
        None => end,
    }
}
