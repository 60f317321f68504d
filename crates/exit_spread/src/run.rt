//! Runs to an exit that a line keeps, and the stops behind it.
ghost use Rattle.std.specs.Prelude.{◌≡◌, ◌<◌, ◌≤◌, ◌≤ℤ◌, ◌<ℤ◌, ◌↔◌, ℤ, pos, All, AllPairs, Contains, IsTrue, Some, length, slice_get};
ghost use Rattle.exit_rows.specs.Exits.{IsSmallKept, ahead_at};
ghost use Rattle.plane_geom.specs.Along.{reach};
ghost use Rattle.plane_geom.specs.Floor.{point_on};
ghost use Rattle.plane_geom.specs.Point.{IsCoordinate, PointIsOnSheet};
ghost use Rattle.search_problem.specs.Bounds.{most_cost};
ghost use Rattle.exit_spread.specs.Propagating.{LiesUpTo, crosswise, reach_along};
ghost use Rattle.exit_spread.specs.Offers.{from_after, from_of};
ghost use Rattle.line_lists.specs.declared.stop.Stop.{Stop as StopOf};

use exit_rows::Kept;
use line_lists::Stop;
use plane_geom::{Dir, Line, Point, SHEET_START, Way};
use side_touches::reach;

/// Runs along a line in one heading, in one stage, to an exit that the line keeps, which is at the
/// point `end`. They begin where the exit counts.
#[derive(Clone, Copy, Debug)]
pub struct Run {
    pub stage: u32,
    pub line: usize,
    pub heading: Dir,
    pub end: Point,
    pub kept: Kept,
}

/// Whether the point `p` is on the whole line through `q` in the heading, and no further on.
pub fn lies_up_to(p: Point, heading: Dir, q: Point) -> bool
    requires p_within { PointIsOnSheet p }
    requires q_within { PointIsOnSheet q }
    ensures { IsTrue result ↔ LiesUpTo p heading q }
{
    if p.across(heading.way()) != q.across(heading.way()) {
        return false;
    }
    reach(heading, p) <= reach(heading, q)
}

/// From which reach on an exit at the point counts, where the next checkpoint is this one.
fn counts_after(next: Point, heading: Dir, at: Point) -> i64
    requires next_within { PointIsOnSheet next }
    requires at_within { PointIsOnSheet at }
    ensures exact { result ≡ from_after (Some next) heading at }
    ensures within { IsCoordinate result }
{
    if next.across(heading.way()) == at.across(heading.way())
        && reach(heading, next) < reach(heading, at)
    {
        reach(heading, next) + 1
    } else {
        SHEET_START
    }
}

/// The checkpoint after the first `stage` ones.
fn next_checkpoint(via: &[Point], stage: u32) -> Option<Point>
    ensures { result ≡ slice_get via.now stage }
{
    via.get(stage as usize).copied()
}

/// From which reach on an exit at the point counts in the stage: from just after the next
/// checkpoint, where that is further back on the line, and otherwise from anywhere.
pub fn counts_from(via: &[Point], stage: u32, heading: Dir, at: Point) -> i64
    requires via { All PointIsOnSheet via.now }
    requires at_within { PointIsOnSheet at }
    ensures exact { result ≡ from_of via.now stage heading at }
    ensures within { IsCoordinate result }
{
    match next_checkpoint(via, stage) {
        None => SHEET_START,
        Some(next) => counts_after(next, heading, at),
    }
}

/// A direction across the other one; the second one is its opposite.
pub fn crosswise(dir: Dir) -> Dir
    ensures { result ≡ crosswise dir }
{
    match dir {
        Dir::East | Dir::West => Dir::South,
        Dir::South | Dir::North => Dir::East,
    }
}

/// The point of the line that is so far along it.
pub fn point_on(line: &Line, along: i64) -> Point
    ensures { result ≡ point_on line.now.way line.now.at along }
{
    match line.way {
        Way::Vertical => Point {
            x: line.at,
            y: along,
        },
        Way::Horizontal => Point {
            x: along,
            y: line.at,
        },
    }
}

/// The reach in the heading of a point so far along its line.
pub fn reach_along(heading: Dir, along: i64) -> i64
    requires { IsCoordinate along }
    ensures { result ≡ reach_along heading along }
{
    match heading {
        Dir::East | Dir::South => along,
        Dir::West | Dir::North => -along,
    }
}

/// From how far on runs to the exit begin at least, where they begin from `near` on.
pub fn first_begin(near: i64, kept: &Kept) -> i64
    ensures from { kept.now.from ≤ℤ result }
    ensures both { (z : ℤ) → kept.now.from ≤ℤ z → near ≤ℤ z → result ≤ℤ z }
{
    near.max(kept.from)
}

/// How far on runs to the exit may begin at most, where they begin up to `held`.
pub fn last_begin(held: i64, kept: &Kept) -> i64
    requires kept { IsSmallKept kept.now }
    ensures held { result ≤ℤ held }
    ensures before { result <ℤ kept.now.at }
    ensures both { (z : ℤ) → z ≤ℤ held → z <ℤ kept.now.at → z ≤ℤ result }
{
    held.min(kept.at - 1)
}

/// The stops up to the coordinate.
fn stops_upto(stops: &[Stop], high: i64) -> &[Stop]
    requires { AllPairs (λ s t. s.along <ℤ t.along) stops.now }
    ensures members { (s : StopOf) → Contains result.now s ↔ (Contains stops.now s × (s.along ≤ℤ high)) }
    ensures rise { AllPairs (λ s t. s.along <ℤ t.along) result.now }
    ensures few { length result.now ≤ length stops.now }
{
    let (upto, _) = stops.split_at(stops.partition_point(|stop| stop.along <= high));
    upto
}

/// The stops from the coordinate on.
fn stops_from(stops: &[Stop], low: i64) -> &[Stop]
    requires { AllPairs (λ s t. s.along <ℤ t.along) stops.now }
    ensures members { (s : StopOf) → Contains result.now s ↔ (Contains stops.now s × (low ≤ℤ s.along)) }
    ensures few { length result.now ≤ length stops.now }
{
    let (_, from) = stops.split_at(stops.partition_point(|stop| stop.along < low));
    from
}

/// The stops from the reach `from` up to `to` in the heading.
pub fn stops_between(stops: &[Stop], heading: Dir, from: i64, to: i64) -> &[Stop]
    requires rise { AllPairs (λ s t. s.along <ℤ t.along) stops.now }
    requires from { IsCoordinate from }
    requires to { IsCoordinate to }
    ensures members { (s : StopOf) → Contains result.now s ↔ (Contains stops.now s × (from ≤ℤ reach_along heading s.along) × (reach_along heading s.along ≤ℤ to)) }
    ensures few { length result.now ≤ length stops.now }
{
    match heading {
        Dir::East | Dir::South => stops_from(stops_upto(stops, to), from),
        Dir::West | Dir::North => stops_from(stops_upto(stops, -from), -to),
    }
}
