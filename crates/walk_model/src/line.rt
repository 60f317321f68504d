//! The cost of a line, and the checkpoints that it passes.
ghost use Rattle.std.specs.Prelude.{◌≡◌, ℕ, ◌+◌, ◌<◌, ◌≤◌, ◌^◌, ◌↔◌, List, [], ◌∷◌, ◌++◌, take, length, replicate, All, IsTrue};
ghost use Rattle.plane_geom.specs.Along.{across, way_of};
ghost use Rattle.plane_geom.specs.Point.{distance, forward};
ghost use Rattle.plane_geom.specs.declared.point.Dir.{Dir};
ghost use Rattle.plane_geom.specs.declared.point.Point.{Point};
ghost use Rattle.walk_model.specs.Cost.{bends, runs, turn, walk_cost};
ghost use Rattle.walk_model.specs.Lean.{lean};
ghost use Rattle.walk_model.specs.Legal.{Passes};
ghost use Rattle.walk_model.specs.Line.{AreStraight, Draws, IsOrthogonal, steps_of, walk_through};
ghost use Rattle.walk_model.specs.Walk.{Walk, after, end_of, point_at, step_at, straight_walk};

use crate::stretch::Stretch;
use plane_geom::{Dir, Point};

/// The cost of the walk along the line: its length, and the penalty for each bend.
///
/// A turn is one bend and a doubling back is two. All in thousandths. The line has only vertical
/// and horizontal segments, lies on the sheet and has at most 40,000,000 points, and the penalty is
/// at most 10^9.
pub fn cost_of(points: &[Point], penalty: u64) -> u64
    requires line { IsOrthogonal points.now }
    requires small { penalty ≤ 10 ^ 9 }
    ensures { result ≡ walk_cost penalty (steps_of points.now) }
{
    let Some((&first, rest)) = points.split_first() else {
        return 0;
    };
    let mut at = first;
    let mut last = None;
    let mut walked = 0;
    let mut bends = 0;
    for &next in rest {
        let steps = at.distance(next);
        if steps > 0 {
            let dir = at.heading(next);
            if let Some(before) = last {
                bends += turn(before, dir);
            }
            last = Some(dir);
            walked += steps;
        }
        at = next;
    }
    walked + penalty * bends
}

/// Whether the walk along the line passes the checkpoints in order.
///
/// Two checkpoints are passed at one point only if they are equal. The line meets the conditions of
/// `cost_of`. A line without points passes no checkpoint.
pub fn passes(points: &[Point], via: &[Point]) -> bool
    requires line { IsOrthogonal points.now }
    ensures walk { (w : Walk) → Draws points.now w →
        IsTrue result ↔ Passes w 0 (length w.steps) via.now }
    ensures no_walk { points.now ≡ [] → IsTrue result ↔ (via.now ≡ []) }
{
    let steps = cost_of(points, 0);
    passed_between(points, 0, steps, via) == via.len()
}

/// The number of checkpoints, from the first on, that the walk along the line passes in order
/// between its point number `from` and its point number `to`. Points of a walk are numbered by unit
/// steps, from 0.
///
/// The line meets the conditions of `cost_of`, and both numbers are those of points of its walk.
pub fn passed_between(points: &[Point], from: u64, to: u64, via: &[Point]) -> usize
    requires line { IsOrthogonal points.now }
    requires in_order { from ≤ to }
    requires ends_within { to ≤ length (steps_of points.now) }
    ensures at_most { result ≤ length via.now }
    ensures passed { (w : Walk) → Draws points.now w → Passes w from to (take result via.now) }
    ensures no_more { (w : Walk) → Draws points.now w → result < length via.now →
        Passes w from to (take (result + 1) via.now) → ⊥ }
    ensures no_walk { points.now ≡ [] → result ≡ 0 }
{
    let Some((&first, rest)) = points.split_first() else {
        return 0;
    };
    let mut at = first;
    let mut walked = 0;
    // The walk begins with the line's first point alone.
    let mut passed = Stretch::between(0, first, first).passed_between(from, to, via);
    for &next in rest {
        let segment = Stretch::between(walked, at, next);
        passed += segment.passed_between(from, to, &via[passed..]);
        walked += segment.steps;
        at = next;
    }
    passed
}

/// Equal steps in a row lead straight on, and make one run without a bend; the walk of a straight
/// line ends at its last corner.
pub fn straight_by_steps()
    ensures end { (p : Point) (d : Dir) (n : ℕ) → after p (replicate n d) ≡ forward d n p }
    ensures points { (p : Point) (d : Dir) (n k : ℕ) → k ≤ n →
        point_at (straight_walk p d n) k ≡ forward d k p }
    ensures steps { (p : Point) (d : Dir) (n k : ℕ) → k < n → step_at (straight_walk p d n) k ≡ d }
    ensures no_bend { (d : Dir) (n : ℕ) → bends (replicate n d) ≡ 0 }
    ensures one_run { (d : Dir) (n : ℕ) → 0 < n → runs (replicate n d) ≡ 1 }
    ensures one_lean { (p : Point) (d : Dir) (n : ℕ) → 0 < n → lean p (replicate n d) ≡ across (way_of d) p }
    ensures line_end { (p q : Point) (corners : List Point) → AreStraight p (corners ++ q ∷ []) →
        end_of (walk_through p (corners ++ q ∷ [])) ≡ q }
{}

/// A walk has at least as many steps as the distance of its ends.
pub fn walks_are_no_shorter()
    ensures { (w : Walk) → distance w.start (end_of w) ≤ length w.steps }
{}

/// The number of bends between two consecutive steps.
fn turn(from: Dir, to: Dir) -> u64
    ensures { result ≡ turn from to }
{
    if from == to {
        0
    } else if from == to.opposite() {
        2
    } else {
        1
    }
}
