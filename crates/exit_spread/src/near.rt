//! Where on a run a walk may turn into it, by a lower bound on the cost of reaching it there.
ghost use Rattle.std.specs.Prelude.{◌≡◌, ◌+◌, ◌<◌, ◌≤◌, ◌≤ℤ◌, ◌<ℤ◌, ◌↔◌, ◌^◌, ℤ, All, IsTrue};
ghost use Rattle.std.specs.Int.{int_gap};
ghost use Rattle.exit_rows.specs.Exits.{IsSmallKept};
ghost use Rattle.exit_spread.specs.Near.{ComesStraight, HasReach, IsNear, bends_to_line, greatest_reach, least_reach};
ghost use Rattle.move_model.specs.Boxes.{outside};
ghost use Rattle.plane_geom.specs.Point.{IsCoordinate, PointIsOnSheet};
ghost use Rattle.plane_geom.specs.Rect.{RectIsOnSheet};
ghost use Rattle.search_problem.specs.Bounds.{least_bound_from, most_cost};
ghost use Rattle.search_problem.specs.Origins.{IsOrigin, bound_from};
ghost use Rattle.walk_model.specs.Cost.{turn};

use crate::run::Run;
use plane_geom::{Dir, Rect};
use search_problem::Origin;

/// Beyond all reaches.
const BEYOND: i64 = i64::MAX;

/// No reach.
const NOWHERE: Near = Near {
    from: BEYOND,
    low: BEYOND,
    high: i64::MIN,
};

/// Reaches in the heading of a run: those from `from` on, and those from `low` to `high`.
#[derive(Clone, Copy, Debug)]
pub struct Near {
    pub from: i64,
    pub low: i64,
    pub high: i64,
}

impl Near {
    /// Whether the reach is one of these.
    pub fn has(&self, reach: i64) -> bool
        ensures { IsTrue result ↔ HasReach self.now reach }
    {
        self.from <= reach || (self.low <= reach && reach <= self.high)
    }

    /// The least reach that may be one of these.
    pub fn first(&self) -> i64
        ensures { (z : ℤ) → HasReach self.now z → result ≤ℤ z }
    {
        self.from.min(self.low)
    }

    /// These and the other ones, and those between their ranges.
    fn join(self, other: Near) -> Near
        ensures first { (z : ℤ) → HasReach self z → HasReach result z }
        ensures second { (z : ℤ) → HasReach other z → HasReach result z }
    {
        Near {
            from: self.from.min(other.from),
            low: self.low.min(other.low),
            high: self.high.max(other.high),
        }
    }
}

/// The least reach of the box in the heading.
fn least_reach(ports: &Rect, heading: Dir) -> i64
    requires { RectIsOnSheet ports.now }
    ensures exact { result ≡ least_reach heading ports.now }
    ensures within { IsCoordinate result }
{
    match heading {
        Dir::East => ports.left,
        Dir::South => ports.top,
        Dir::West => -ports.right,
        Dir::North => -ports.bottom,
    }
}

/// The greatest reach of the box in the heading.
fn greatest_reach(ports: &Rect, heading: Dir) -> i64
    requires { RectIsOnSheet ports.now }
    ensures exact { result ≡ greatest_reach heading ports.now }
    ensures within { IsCoordinate result }
{
    match heading {
        Dir::East => ports.right,
        Dir::South => ports.bottom,
        Dir::West => -ports.left,
        Dir::North => -ports.top,
    }
}

/// From which reach on it takes no more than `room` steps to the range from `low` to `high` and to
/// `at`, for one before `at`.
fn reach_within(low: i64, high: i64, at: i64, room: u64) -> i64
    requires low { IsCoordinate low }
    requires high { IsCoordinate high }
    requires at { IsCoordinate at }
    requires room { room ≤ most_cost }
    ensures { (z : ℤ) → z <ℤ at → int_gap z at + outside low z high ≤ room → result ≤ℤ z }
{
    let from = at - room as i64;
    if from > high {
        return BEYOND;
    }
    if from >= low {
        return from;
    }
    // Before the range each step back takes one more to it.
    let back = (low - from) as u64 / 2;
    low - back as i64
}

/// From which reach on the steps to the box and to the run's exit cost no more than `best` with this
/// cost.
fn affordable_from(ports: &Rect, run: &Run, cost: u64, best: u64) -> i64
    requires ports { RectIsOnSheet ports.now }
    requires kept { IsSmallKept run.now.kept }
    requires best { best ≤ most_cost }
    ensures { (z : ℤ) → z <ℤ run.now.kept.at →
        int_gap z run.now.kept.at + outside (least_reach run.now.heading ports.now) z (greatest_reach run.now.heading ports.now) + cost ≤ best → result ≤ℤ z }
{
    if cost > best {
        return BEYOND;
    }
    let low = least_reach(ports, run.heading);
    let high = greatest_reach(ports, run.heading);
    reach_within(low, high, run.kept.at, best - cost)
}

/// Whether a walk may leave the ports and come to the line of the run with the heading `before`, and
/// not bend.
fn comes_straight(origin: &Origin, run: &Run, before: Dir) -> bool
    requires origin { IsOrigin origin.now }
    requires end { PointIsOnSheet run.now.end }
    ensures { IsTrue result ↔ ComesStraight origin.now run.now.end before }
{
    origin.dir == before && !origin.lies_behind(run.end, before)
}

/// A lower bound on the bends of a walk from the origin that comes to the line of the run with the
/// heading `before`, and not before the ports.
fn bends_to_line(origin: &Origin, run: &Run, before: Dir) -> u64
    requires origin { IsOrigin origin.now }
    requires end { PointIsOnSheet run.now.end }
    ensures exact { result ≡ bends_to_line origin.now run.now.end before }
    ensures few { result ≤ 4 }
{
    let behind = origin.lies_behind(run.end, before);
    if before == origin.dir {
        if behind { 4 } else { 2 }
    } else if before == origin.dir.opposite() {
        2
    } else if behind {
        3
    } else {
        1
    }
}

/// Where a walk from the origin may turn from the heading `before` into the run, if it costs no more
/// than `best`.
fn near_origin(origin: &Origin, run: &Run, before: Dir, best: u64, penalty: u64) -> Near
    requires origin { IsOrigin origin.now }
    requires kept { IsSmallKept run.now.kept }
    requires end { PointIsOnSheet run.now.end }
    requires turn { turn before run.now.heading ≡ 1 }
    requires best { best ≤ most_cost }
    requires penalty { penalty ≤ 10 ^ 9 }
    ensures { IsNear run.now (λ q. bound_from penalty origin.now q before) penalty best result }
{
    let ports = &origin.ports;
    let beside = origin.beside(run.heading.way(), run.end);
    let straight = run.kept.ahead.cost + penalty + origin.lead + beside;
    let bent = straight + penalty * bends_to_line(origin, run, before);
    let from = affordable_from(ports, run, bent, best);
    if !comes_straight(origin, run, before) {
        return Near { from, ..NOWHERE };
    }
    let low = affordable_from(ports, run, straight, best);
    Near {
        from,
        low: low.max(least_reach(ports, run.heading)),
        high: greatest_reach(ports, run.heading),
    }
}

/// Where a walk from one of the origins may turn from the heading `before` into the run, if it costs
/// no more than `best`.
pub fn near_from(origins: &[Origin], run: &Run, before: Dir, best: u64, penalty: u64) -> Near
    requires origins { All IsOrigin origins.now }
    requires kept { IsSmallKept run.now.kept }
    requires end { PointIsOnSheet run.now.end }
    requires turn { turn before run.now.heading ≡ 1 }
    requires best { best ≤ most_cost }
    requires penalty { penalty ≤ 10 ^ 9 }
    ensures { IsNear run.now (λ q. least_bound_from penalty origins.now q before) penalty best result }
{
    let mut near = NOWHERE;
    for origin in origins {
        near = near.join(near_origin(origin, run, before, best, penalty));
    }
    near
}
