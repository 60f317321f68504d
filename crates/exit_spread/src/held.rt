//! Where the runs of a first walk are held, and where they may begin.
ghost use Rattle.std.specs.Prelude.{◌≡◌, ◌<◌, ◌≤ℤ◌, ℕ, ℤ, All, Any, IsSomeAnd, IsTrue, List, Some, length, slice_get};
ghost use Rattle.line_arena.specs.Arena.{StandsAt};
ghost use Rattle.line_lists.specs.Lists.{Lists, number_of};
ghost use Rattle.plane_geom.specs.Along.{across, reach, way_of};
ghost use Rattle.plane_geom.specs.Point.{IsCoordinate, PointIsOnSheet};
ghost use Rattle.plane_geom.specs.Rect.{HasWithin};
ghost use Rattle.plane_geom.specs.declared.floor.Line.{Line};
ghost use Rattle.plane_geom.specs.declared.point.Point.{Point as PointOf};
ghost use Rattle.plane_geom.specs.declared.rect.Solid.{Solid};
ghost use Rattle.search_problem.specs.Problems.{IsReady};
ghost use Rattle.side_touches.specs.Touches.{AreTouches, IsRunOn, IsTouched};
ghost use Rattle.walk_laws.specs.Sides.{held_to};
ghost use Rattle.walk_model.specs.Cost.{turn};
ghost use Rattle.exit_spread.specs.Propagating.{AreOf, IsBehind, IsRun, LiesUpTo};
ghost use Rattle.exit_spread.specs.Offers.{IsHeldUpTo, MayBegin};

use crate::run::{Run, crosswise, lies_up_to};
use plane_geom::{Dir, Point, Way};
use search_problem::{Origin, Problem};
use side_touches::{Touches, reach};

/// To which side a run is held, by the directions of the steps before it and behind it.
fn held_to(before: Dir, next: Dir) -> Dir
    ensures { result ≡ held_to before next }
{
    match (before, next) {
        (Dir::East, _) => Dir::West,
        (Dir::South, _) => Dir::North,
        (Dir::West, Dir::East) => Dir::East,
        (Dir::West, _) => Dir::West,
        (Dir::North, Dir::South) => Dir::South,
        (Dir::North, _) => Dir::North,
    }
}

/// The greater of the two, if there is one.
fn greater(a: Option<i64>, b: Option<i64>) -> Option<i64>
    ensures first { (z : ℤ) → IsSomeAnd a (λ x. z ≤ℤ x) → IsSomeAnd result (λ x. z ≤ℤ x) }
    ensures second { (z : ℤ) → IsSomeAnd b (λ x. z ≤ℤ x) → IsSomeAnd result (λ x. z ≤ℤ x) }
{
    match (a, b) {
        (None, b) => b,
        (Some(a), None) => Some(a),
        (Some(a), Some(b)) => Some(a.max(b)),
    }
}

/// The greatest reach of a checkpoint on the whole line through the point that is no further on
/// than the point.
fn last_checkpoint(via: &[Point], heading: Dir, at: Point) -> Option<i64>
    requires via { All PointIsOnSheet via.now }
    requires at_within { PointIsOnSheet at }
    ensures { All (λ c. LiesUpTo c heading at → IsSomeAnd result (λ z. reach heading c ≤ℤ z)) via.now }
{
    let mut last = None;
    for &checkpoint in via {
        if lies_up_to(checkpoint, heading, at) {
            last = greater(last, Some(reach(heading, checkpoint)));
        }
    }
    last
}

/// The reach up to which a run to the exit may begin, where the walk reaches it with the heading
/// `before`; `None` if no such run is held.
pub fn held_from(problem: &Problem<'_>, touches: &Touches, run: &Run, before: Dir) -> Option<i64>
    requires ready { IsReady problem.now }
    requires of { (lists : Lists) × AreOf problem.now lists touches.now × IsRun problem.now (number_of lists) run.now }
    requires turn { turn before run.now.heading ≡ 1 }
    ensures { (lists : Lists) → AreOf problem.now lists touches.now → IsRun problem.now (number_of lists) run.now →
        (c : ℕ) (q : Point) → IsBehind problem.now (number_of lists) run.now c q → IsHeldUpTo problem.now before run.now.heading q run.now.kept →
        IsSomeAnd result (λ z. reach run.now.heading q ≤ℤ z) }
{
    let Some(next) = run.kept.next else {
        return Some(run.kept.at);
    };
    let checkpoint = last_checkpoint(problem.task.via.as_slice(), run.heading, run.end);
    let touched = touches.touched_from(run.line, held_to(before, next), run.heading, run.kept.at);
    greater(touched, checkpoint)
}

/// Whether a checkpoint is on the whole line of the way at the coordinate.
fn has_checkpoint(via: &[Point], way: Way, at: i64) -> bool
    ensures { Any (λ c. across way c ≡ at) via.now → IsTrue result }
{
    for &checkpoint in via {
        if checkpoint.across(way) == at {
            return true;
        }
    }
    false
}

/// Whether the whole line of the way at the coordinate meets the box of the ports.
fn meets_ports(origin: &Origin, way: Way, at: i64) -> bool
    ensures { (p : PointOf) → HasWithin origin.now.ports p → across way p ≡ at → IsTrue result }
{
    match way {
        Way::Vertical => origin.ports.left <= at && at <= origin.ports.right,
        Way::Horizontal => origin.ports.top <= at && at <= origin.ports.bottom,
    }
}

/// Whether an entry may be on the whole line of the way at the coordinate.
fn has_entry(origins: &[Origin], way: Way, at: i64) -> bool
    ensures { (p : PointOf) → Any (λ o. HasWithin o.ports p) origins.now → across way p ≡ at → IsTrue result }
{
    for origin in origins {
        if meets_ports(origin, way, at) {
            return true;
        }
    }
    false
}

/// Whether a run along the line in the heading, up to that reach, may touch the side to which it is
/// held where the walk reaches it with the heading `before` and goes on to `next`.
fn may_be_held(
    touches: &Touches,
    line: usize,
    heading: Dir,
    end: i64,
    before: Dir,
    next: Dir,
) -> bool
    requires line { line < length touches.now }
    requires turn { turn before heading ≡ 1 }
    requires end { IsCoordinate end }
    ensures { (lines : List Line) (solids : List Solid) (l : Line) → AreTouches lines solids touches.now → slice_get lines line ≡ Some l →
        (p q : PointOf) → IsRunOn l heading p q → reach heading q ≡ end → IsTouched solids (held_to before next) heading p q → IsTrue result }
{
    touches.may_touch(line, held_to(before, next), heading, end)
}

/// Whether a run in the heading, along the line whose coordinate is `at`, that comes as far as `end`
/// and turns there to `next`, may be part of a first walk: it may begin at an entry or be held.
pub fn may_begin(
    problem: &Problem<'_>,
    touches: &Touches,
    line: usize,
    heading: Dir,
    at: i64,
    end: i64,
    next: Dir,
) -> bool
    requires ready { IsReady problem.now }
    requires line { line < length touches.now }
    requires end { IsCoordinate end }
    ensures { (lists : Lists) → AreOf problem.now lists touches.now → (c : ℕ) (q : PointOf) → StandsAt problem.now.arena.now c q →
        number_of lists c (way_of heading) ≡ line → across (way_of heading) q ≡ at → reach heading q ≡ end → MayBegin problem.now heading c q next → IsTrue result }
{
    let before = crosswise(heading);
    may_be_held(touches, line, heading, end, before, next)
        || may_be_held(touches, line, heading, end, before.opposite(), next)
        || has_checkpoint(problem.task.via.as_slice(), heading.way(), at)
        || has_entry(&problem.origins[0], heading.way(), at)
}
