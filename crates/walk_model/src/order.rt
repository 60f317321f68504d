//! The order of routes.
ghost use Rattle.std.specs.Prelude.{◌≡◌, ◌+◌, ◌+ℤ◌, ◌<◌, ◌^◌, ◌↔◌, List, IsTrue, unsigned_abs};
ghost use Rattle.plane_geom.specs.declared.rect.Solid.{Solid};
ghost use Rattle.walk_model.specs.Answers.{HasOneAnswer};
ghost use Rattle.walk_model.specs.Cost.{runs};
ghost use Rattle.walk_model.specs.Lean.{line_lean};
ghost use Rattle.walk_model.specs.Line.{IsOrthogonal, steps_of};
ghost use Rattle.walk_model.specs.OneFirst.{HasOneFirst};
ghost use Rattle.walk_model.specs.Order.{IsRouteOf, Triple, compare_by_keys, compare_triples};
ghost use Rattle.walk_model.specs.declared.task.Task.{Task};

use crate::route::Route;
use crate::steps::compare_steps;
use plane_geom::{Dir, Point};
use std::cmp::Ordering;

/// The number of runs of a line, and the sum of their coordinates across.
#[derive(Clone, Copy)]
struct Shape {
    runs: u64,
    lean: i64,
}

impl Shape {
    /// The shape with one more run, at the coordinate `across`.
    fn with_run(self, across: i64) -> Shape
        requires runs { self.runs < 2 ^ 63 }
        requires lean { unsigned_abs self.lean + unsigned_abs across < 2 ^ 63 }
        ensures runs { result.runs ≡ self.runs + 1 }
        ensures lean { result.lean ≡ self.lean +ℤ across }
    {
        Shape {
            runs: self.runs + 1,
            lean: self.lean + across,
        }
    }
}

/// Whether a step in the direction `dir` continues the run of the last step.
fn goes_on(last: Option<Dir>, dir: Dir) -> bool
    ensures { IsTrue result ↔ (last ≡ Some dir) }
{
    last == Some(dir)
}

/// The number of runs of the walk along the line: its longest blocks of equal steps.
///
/// The line meets the conditions of `cost_of`.
pub fn run_count(points: &[Point]) -> u64
    requires line { IsOrthogonal points.now }
    ensures { result ≡ runs (steps_of points.now) }
{
    shape_of(points).runs
}

fn shape_of(points: &[Point]) -> Shape
    requires line { IsOrthogonal points.now }
    ensures runs { result.runs ≡ runs (steps_of points.now) }
    ensures lean { result.lean ≡ line_lean points.now }
{
    let mut shape = Shape { runs: 0, lean: 0 };
    let Some((&first, rest)) = points.split_first() else {
        return shape;
    };
    let mut at = first;
    let mut last = None;
    for &next in rest {
        if at.distance(next) > 0 {
            let dir = at.heading(next);
            if !goes_on(last, dir) {
                shape = shape.with_run(at.across(dir.way()));
                last = Some(dir);
            }
        }
        at = next;
    }
    shape
}

/// Compares two routes of one task: by cost, then by the number of runs, the sum of run coordinates
/// (lean), the start choice, the list of unit steps and the end choice. A list of steps that is the
/// beginning of another comes before it.
///
/// The steps are compared run by run, without building the lists of steps. Both lines meet the
/// conditions of `cost_of`.
pub fn compare_routes(a: &Route, b: &Route) -> Ordering
    requires a_line { IsOrthogonal a.now.points }
    requires b_line { IsOrthogonal b.now.points }
    ensures keys { result ≡ compare_by_keys a.now b.now }
    ensures order { (task : Task) (t u : Triple) → IsRouteOf task a.now t → IsRouteOf task b.now u →
        result ≡ compare_triples task t u }
{
    let a_shape = shape_of(a.points.as_slice());
    let b_shape = shape_of(b.points.as_slice());
    a.cost
        .cmp(&b.cost)
        .then(a_shape.runs.cmp(&b_shape.runs))
        .then(a_shape.lean.cmp(&b_shape.lean))
        .then(a.start.cmp(&b.start))
        .then(compare_steps(a.points.as_slice(), b.points.as_slice()))
        .then(a.end.cmp(&b.end))
}

/// Where a task has a legal walk, exactly one legal walk comes before all others.
pub fn one_first_walk()
    ensures { (solids : List Solid) (task : Task) → HasOneFirst solids task }
{}

/// A walk with its choices has at most one route.
pub fn one_route()
    ensures { (task : Task) (t : Triple) (a b : Route) → IsRouteOf task a t → IsRouteOf task b t → a ≡ b }
{}

/// Each walk with its choices has a route, in numbers without bounds.
pub fn some_route()
    ensures { (task : Task) (t : Triple) → (r : Route) × IsRouteOf task r t }
{}

/// A task has at most one answer.
pub fn one_answer()
    ensures { (solids : List Solid) (task : Task) → HasOneAnswer solids task }
{}
