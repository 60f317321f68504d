//! The unit steps of a line, compared run by run.
ghost use Rattle.std.specs.Prelude.{◌≡◌, ◌≤◌, ◌++◌, drop, replicate, All};
ghost use Rattle.std.specs.Cmp.Lexicographic.{slice_cmp};
ghost use Rattle.plane_geom.specs.Point.{PointIsOnSheet};
ghost use Rattle.walk_model.specs.Line.{steps_of, steps_through};
ghost use Rattle.walk_model.specs.Order.{dir_cmp};
ghost use Rattle.walk_model.specs.RemainingSteps.{IsReady, remaining_steps};

use plane_geom::{Dir, Point};
use std::cmp::Ordering;

/// The unit steps of a line that are left: a stretch of equal steps, and then the line
/// from the point where that ends through the other corners.
#[derive(Clone, Copy)]
struct RemainingSteps<'a> {
    dir: Dir,
    stretch: u64,
    at: Point,
    rest: &'a [Point],
}

/// The steps of a stretch and of a line, with those at the front as the stretch, where there are
/// any.
fn steps_from<'a>(dir: Dir, stretch: u64, at: Point, rest: &'a [Point]) -> RemainingSteps<'a>
    requires within { PointIsOnSheet at }
    requires rest_within { All PointIsOnSheet rest.now }
    ensures steps { remaining_steps result ≡ replicate stretch dir ++ steps_through at rest.now }
    ensures ready { IsReady result }
{
    let mut dir = dir;
    let mut stretch = stretch;
    let mut at = at;
    let mut rest = rest;
    while stretch == 0 {
        let Some((&next, others)) = rest.split_first() else {
            break;
        };
        dir = at.heading(next);
        stretch = at.distance(next);
        at = next;
        rest = others;
    }
    RemainingSteps {
        dir,
        stretch,
        at,
        rest,
    }
}

impl<'a> RemainingSteps<'a> {
    /// The steps that are left after the first `steps` of the stretch.
    fn after(self, steps: u64) -> RemainingSteps<'a>
        requires ready { IsReady self }
        requires within { steps ≤ self.stretch }
        ensures left { remaining_steps result ≡ drop steps (remaining_steps self.entry) }
        ensures ready { IsReady result }
    {
        steps_from(self.dir, self.stretch - steps, self.at, self.rest)
    }
}

/// Compares two lists of steps.
fn compare_remaining(a: RemainingSteps<'_>, b: RemainingSteps<'_>) -> Ordering
    requires a_ready { IsReady a }
    requires b_ready { IsReady b }
    ensures { result ≡ slice_cmp dir_cmp (remaining_steps a.entry) (remaining_steps b.entry) }
{
    let mut a = a;
    let mut b = b;
    while a.stretch > 0 && b.stretch > 0 && a.dir == b.dir {
        let common = a.stretch.min(b.stretch);
        a = a.after(common);
        b = b.after(common);
    }
    match (a.stretch > 0, b.stretch > 0) {
        (false, false) => Ordering::Equal,
        (false, true) => Ordering::Less,
        (true, false) => Ordering::Greater,
        (true, true) => a.dir.cmp(&b.dir),
    }
}

/// Compares two lines by their unit steps, step by step, in the order East, South, West, North.
/// A line whose steps are the beginning of another's comes before it.
pub(crate) fn compare_steps(a: &[Point], b: &[Point]) -> Ordering
    requires a_within { All PointIsOnSheet a.now }
    requires b_within { All PointIsOnSheet b.now }
    ensures { result ≡ slice_cmp dir_cmp (steps_of a.now) (steps_of b.now) }
{
    compare_remaining(steps_along(a), steps_along(b))
}

/// All the steps of a line.
fn steps_along(points: &[Point]) -> RemainingSteps<'_>
    requires { All PointIsOnSheet points.now }
    ensures steps { remaining_steps result ≡ steps_of points.now }
    ensures ready { IsReady result }
{
    match points.split_first() {
        Some((&first, rest)) => steps_from(Dir::East, 0, first, rest),
        None => RemainingSteps {
            dir: Dir::East,
            stretch: 0,
            at: Point { x: 0, y: 0 },
            rest: points,
        },
    }
}
