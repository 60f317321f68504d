//! A lower bound on the cost to a point from the ports that walks leave in one direction.
ghost use Rattle.std.specs.Prelude.{◌≡◌, ◌+◌, ◌*◌, ◌^◌, ◌≤◌, ◌≤ℤ◌, ◌↔◌, All, IfSome, IsNone, IsTrue};
ghost use Rattle.move_model.specs.Boxes.{behind_by, beside, distance_from, fewest_bends, outside};
ghost use Rattle.plane_geom.specs.Along.{way_of};
ghost use Rattle.plane_geom.specs.Point.{IsCoordinate, PointIsOnSheet};
ghost use Rattle.std.specs.Int.{int_gap};
ghost use Rattle.search_problem.specs.Origins.{Covers, IsOrigin, IsSmallEntry, bound_from};
ghost use Rattle.search_problem.specs.declared.ends.Entry.{Entry};
ghost use Rattle.walk_model.specs.Cost.{turn};

use crate::ends::Entry;
use plane_geom::{Dir, Point, Rect, Way};

/// The box around the ports that walks leave in one direction, and the least cost of reaching one
/// of them.
#[derive(Clone, Copy, Debug)]
pub struct Origin {
    pub dir: Dir,
    pub ports: Rect,
    pub lead: u64,
}

/// How much `to` is greater than `from`.
fn gap(from: i64, to: i64) -> u64
    requires from { IsCoordinate from }
    requires to { IsCoordinate to }
    ensures exact { result ≡ int_gap from to }
    ensures small { result ≤ 4 * 10 ^ 9 }
{
    if from < to { (to - from) as u64 } else { 0 }
}

/// The lesser of the two.
fn lesser(a: i64, b: i64) -> i64
    requires a { IsCoordinate a }
    requires b { IsCoordinate b }
    ensures within { IsCoordinate result }
    ensures first { result ≤ℤ a }
    ensures second { result ≤ℤ b }
{
    if a < b { a } else { b }
}

/// The greater of the two.
fn greater(a: i64, b: i64) -> i64
    requires a { IsCoordinate a }
    requires b { IsCoordinate b }
    ensures within { IsCoordinate result }
    ensures first { a ≤ℤ result }
    ensures second { b ≤ℤ result }
{
    if a < b { b } else { a }
}

/// The distance of the number from the range from `low` to `high`.
fn outside(low: i64, z: i64, high: i64) -> u64
    requires low { IsCoordinate low }
    requires z { IsCoordinate z }
    requires high { IsCoordinate high }
    ensures exact { result ≡ outside low z high }
    ensures small { result ≤ 8 * 10 ^ 9 }
{
    gap(z, low) + gap(high, z)
}

impl Origin {
    /// The distance of the point to a side of the box, for one who leaves it along lines of the way.
    pub fn beside(&self, way: Way, p: Point) -> u64
        requires origin { IsOrigin self.now }
        requires within { PointIsOnSheet p }
        ensures exact { result ≡ beside way self.now.ports p }
        ensures small { result ≤ 8 * 10 ^ 9 }
    {
        match way {
            Way::Vertical => outside(self.ports.left, p.x, self.ports.right),
            Way::Horizontal => outside(self.ports.top, p.y, self.ports.bottom),
        }
    }

    /// The least number of steps from the box to the point.
    fn distance(&self, p: Point) -> u64
        requires origin { IsOrigin self.now }
        requires within { PointIsOnSheet p }
        ensures exact { result ≡ distance_from self.now.ports p }
        ensures small { result ≤ 16 * 10 ^ 9 }
    {
        self.beside(Way::Vertical, p) + self.beside(Way::Horizontal, p)
    }

    /// Whether the point is to a side of the box, for one who leaves the box in the direction.
    fn is_beside(&self, p: Point) -> bool
        requires origin { IsOrigin self.now }
        requires within { PointIsOnSheet p }
        ensures { IsTrue result ↔ (beside (way_of self.now.dir) self.now.ports p ≡ 0 → ⊥) }
    {
        self.beside(self.dir.way(), p) > 0
    }

    /// Whether the point lies behind the box, for one who leaves the box in the direction.
    pub fn lies_behind(&self, p: Point, dir: Dir) -> bool
        requires origin { IsOrigin self.now }
        requires within { PointIsOnSheet p }
        ensures { IsTrue result ↔ (behind_by dir self.now.ports p ≡ 0 → ⊥) }
    {
        match dir {
            Dir::East => gap(p.x, self.ports.left) > 0,
            Dir::South => gap(p.y, self.ports.top) > 0,
            Dir::West => gap(self.ports.right, p.x) > 0,
            Dir::North => gap(self.ports.bottom, p.y) > 0,
        }
    }

    /// A lower bound on the bends of a walk that arrives at the point in the direction in which it
    /// left the box.
    fn bends_on(&self, p: Point) -> u64
        requires origin { IsOrigin self.now }
        requires within { PointIsOnSheet p }
        ensures exact { result ≡ fewest_bends self.now.dir self.now.ports p self.now.dir }
        ensures few { result ≤ 4 }
    {
        if self.lies_behind(p, self.dir) {
            4
        } else if self.is_beside(p) {
            2
        } else {
            0
        }
    }

    /// A lower bound on the bends of a walk that arrives at the point in a direction across that in
    /// which it left the box.
    fn bends_turned(&self, p: Point, heading: Dir) -> u64
        requires origin { IsOrigin self.now }
        requires within { PointIsOnSheet p }
        requires turned { turn self.now.dir heading ≡ 1 }
        ensures exact { result ≡ fewest_bends self.now.dir self.now.ports p heading }
        ensures few { result ≤ 4 }
    {
        if self.lies_behind(p, self.dir) || self.lies_behind(p, heading) {
            3
        } else {
            1
        }
    }

    /// A lower bound on the bends of a walk from the box that arrives at the point with the
    /// heading.
    fn bends(&self, p: Point, heading: Dir) -> u64
        requires origin { IsOrigin self.now }
        requires within { PointIsOnSheet p }
        ensures exact { result ≡ fewest_bends self.now.dir self.now.ports p heading }
        ensures few { result ≤ 4 }
    {
        if heading == self.dir {
            self.bends_on(p)
        } else if heading == self.dir.opposite() {
            2
        } else {
            self.bends_turned(p, heading)
        }
    }

    /// A lower bound on the cost of reaching the point with the heading.
    pub fn bound(&self, p: Point, heading: Dir, penalty: u64) -> u64
        requires origin { IsOrigin self.now }
        requires within { PointIsOnSheet p }
        requires penalty { penalty ≤ 10 ^ 9 }
        ensures { result ≡ bound_from penalty self.now p heading }
    {
        self.lead + self.distance(p) + penalty * self.bends(p, heading)
    }

    /// The origin, widened to one more entry.
    fn with(self, entry: Entry) -> Origin
        requires origin { IsOrigin self }
        requires entry { IsSmallEntry entry }
        ensures origin { IsOrigin result }
        ensures dir { result.dir ≡ self.dir }
        ensures entry { entry.place.heading ≡ self.dir → Covers result entry }
        ensures others { (e : Entry) → Covers self e → Covers result e }
    {
        Origin {
            dir: self.dir,
            ports: Rect {
                left: lesser(self.ports.left, entry.port.x),
                top: lesser(self.ports.top, entry.port.y),
                right: greater(self.ports.right, entry.port.x),
                bottom: greater(self.ports.bottom, entry.port.y),
            },
            lead: self.lead.min(entry.lead),
        }
    }
}

/// The origin with one more entry in the direction.
fn joined(origin: Option<Origin>, entry: Entry) -> Origin
    requires origin { IfSome origin (λ o. IsOrigin o × (o.dir ≡ entry.place.heading)) }
    requires entry { IsSmallEntry entry }
    ensures origin { IsOrigin result }
    ensures dir { result.dir ≡ entry.place.heading }
    ensures entry { Covers result entry }
    ensures others { IfSome origin (λ o. (e : Entry) → Covers o e → Covers result e) }
{
    match origin {
        None => Origin {
            dir: entry.place.heading,
            ports: Rect {
                left: entry.port.x,
                top: entry.port.y,
                right: entry.port.x,
                bottom: entry.port.y,
            },
            lead: entry.lead,
        },
        Some(origin) => origin.with(entry),
    }
}

/// Whether walks enter in the direction by the entry.
fn leads(entry: &Entry, dir: Dir) -> bool
    ensures { IsTrue result ↔ (entry.now.place.heading ≡ dir) }
{
    entry.place.heading == dir
}

/// The origin of the entries in the direction, if there are any.
pub fn origin_of(entries: &[Entry], dir: Dir) -> Option<Origin>
    requires { All IsSmallEntry entries.now }
    ensures origin { IfSome result IsOrigin }
    ensures dir { IfSome result (λ o. o.dir ≡ dir) }
    ensures covers { IfSome result (λ o. All (λ e. e.place.heading ≡ dir → Covers o e) entries.now) }
    ensures none { IsNone result → All (λ e. e.place.heading ≡ dir → ⊥) entries.now }
{
    let mut found = None;
    for &entry in entries {
        if leads(&entry, dir) {
            found = Some(joined(found, entry));
        }
    }
    found
}
