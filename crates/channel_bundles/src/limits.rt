//! How far a run may move.
ghost use Rattle.std.specs.Prelude.{◌≡◌, ◌↔◌, ◌+◌, ◌-◌, ◌<◌, ℤ, ◌<ℤ◌, ◌≤ℤ◌, All, AllPairs, Contains, IsTrue, length};
ghost use Rattle.plane_geom.specs.declared.point.Point.{Point};
ghost use Rattle.plane_geom.specs.Along.{across};
ghost use Rattle.plane_geom.specs.Floor.{Holds};
ghost use Rattle.plane_geom.specs.Point.{IsCoordinate, opposite};
ghost use Rattle.plane_geom.specs.Rect.{Overlaps};
ghost use Rattle.segment_order.specs.Run.{IsRun, line_of_run, run_at};
ghost use Rattle.channel_bundles.specs.Route.{HasToLeave, HasToReach, IsFixed, IsPhaseRoute};
ghost use Rattle.channel_bundles.specs.Limits.{HasLimits, IsFromTo, IsReached, MayStandAt, Sweeps};
ghost use Rattle.channel_bundles.specs.Links.{IsMember};
ghost use Rattle.channel_bundles.specs.Walls.{AreWalls, StopsBefore, StopsBehind};

use crate::member::Member;
use crate::route::PhaseRoute;
use crate::walls::{Wall, Walls};
use plane_geom::{Dir, Point, SHEET_END, SHEET_START, Way};
use segment_order::Run;

/// The coordinates at which a run may be, from `low` to `high`.
#[derive(Clone, Copy, Debug)]
pub(crate) struct Limits {
    low: i64,
    high: i64,
}

/// Whether the wall and the run share more than a point along the way, or, for a run without
/// length, whether its point is inside the wall.
fn is_along(wall: &Wall, run: &Run) -> bool
    requires wide { wall.now.lo <ℤ wall.now.hi }
    requires run { IsRun run.now }
    ensures { IsTrue result ↔ Overlaps wall.now.lo wall.now.hi run.now.lo run.now.hi }
{
    run.lo < wall.hi && wall.lo < run.hi
}

impl Limits {
    /// The coordinates that are at least `at`.
    fn from(self, at: i64) -> Limits
        ensures { (z : ℤ) → IsFromTo result.low result.high z ↔ (IsFromTo self.low self.high z × (at ≤ℤ z)) }
    {
        Limits {
            low: self.low.max(at),
            high: self.high,
        }
    }

    /// The coordinates that are at most `at`.
    fn up_to(self, at: i64) -> Limits
        ensures { (z : ℤ) → IsFromTo result.low result.high z ↔ (IsFromTo self.low self.high z × (z ≤ℤ at)) }
    {
        Limits {
            low: self.low,
            high: self.high.min(at),
        }
    }

    /// The coordinates at which one who travels in the direction has reached `at`.
    fn reached(self, dir: Dir, at: i64) -> Limits
        ensures { (z : ℤ) → IsFromTo result.low result.high z ↔ (IsFromTo self.low self.high z × IsReached dir at z) }
    {
        match dir {
            Dir::East | Dir::South => self.from(at),
            Dir::West | Dir::North => self.up_to(at),
        }
    }

    /// The same, if it is needed; otherwise no change.
    fn reached_if(self, needed: bool, dir: Dir, at: i64) -> Limits
        ensures { (z : ℤ) → IsFromTo result.low result.high z ↔ (IsFromTo self.low self.high z × (IsTrue needed → IsReached dir at z)) }
    {
        if needed { self.reached(dir, at) } else { self }
    }

    /// The coordinates up to the first of the walls that the run would meet on its way to greater
    /// ones.
    fn up_to_first(self, walls: &[Wall], run: &Run) -> Limits
        requires rise { AllPairs (λ v w. v.at ≤ℤ w.at) walls.now }
        requires wide { All (λ w. w.lo <ℤ w.hi) walls.now }
        requires run { IsRun run.now }
        ensures { (z : ℤ) → IsFromTo result.low result.high z ↔ (IsFromTo self.low self.high z × All (StopsBefore run.now z) walls.now) }
    {
        let first = walls.partition_point(|wall| wall.at < run.at);
        for next in first..walls.len() {
            if is_along(&walls[next], run) {
                return self.up_to(walls[next].at);
            }
        }
        self
    }

    /// The coordinates from the first of the walls on that the run would meet on its way to lesser
    /// ones.
    fn from_first(self, walls: &[Wall], run: &Run) -> Limits
        requires rise { AllPairs (λ v w. v.at ≤ℤ w.at) walls.now }
        requires wide { All (λ w. w.lo <ℤ w.hi) walls.now }
        requires run { IsRun run.now }
        ensures { (z : ℤ) → IsFromTo result.low result.high z ↔ (IsFromTo self.low self.high z × All (StopsBehind run.now z) walls.now) }
    {
        let first = walls.partition_point(|wall| wall.at <= run.at);
        let mut next = first;
        while next > 0 {
            next -= 1;
            if is_along(&walls[next], run) {
                return self.from(walls[next].at);
            }
        }
        self
    }

    /// The coordinates at which one who travels in the direction has reached each checkpoint on the
    /// run.
    fn reached_checkpoints(self, via: &[Point], run: &Run, dir: Dir, way: Way) -> Limits
        ensures { (z : ℤ) → IsFromTo result.low result.high z ↔ (IsFromTo self.low self.high z
            × ((p : Point) → Contains via.now p → Holds (line_of_run run.now) p → IsReached dir (across way p) z)) }
    {
        let mut limits = self;
        for p in via {
            limits = limits.reached_if(run.holds(*p), dir, p.across(way));
        }
        limits
    }
}

/// The coordinates of the sheet for which a move of the run from its place sweeps no part of a
/// solid, of which the walls are.
fn clear_of(walls: &Walls<'_, '_>, run: &Run) -> Limits
    requires walls { AreWalls run.now.way walls.now }
    requires run { IsRun run.now }
    requires clear { All (λ s. Sweeps run.now.way s.rect run.now.at run.now.at run.now.lo run.now.hi → ⊥) walls.now.solids.now }
    ensures { (z : ℤ) → IsFromTo result.low result.high z ↔ (IsCoordinate z
        × All (λ s. Sweeps run.now.way s.rect run.now.at z run.now.lo run.now.hi → ⊥) walls.now.solids.now) }
{
    let sheet = Limits {
        low: SHEET_START,
        high: SHEET_END,
    };
    sheet
        .up_to_first(&walls.onward, run)
        .from_first(&walls.backward, run)
}

impl PhaseRoute<'_> {
    /// The coordinates at which the run before still goes as far as it has to.
    fn reached_before(&self, limits: Limits, k: usize) -> Limits
        requires first { 0 < k }
        requires within { k < length self.now.runs.items }
        ensures { (z : ℤ) → IsFromTo result.low result.high z ↔ (IsFromTo limits.low limits.high z
            × ((p : Point) → HasToReach self.now (k - 1) p →
            IsReached (run_at self.now.runs.items (k - 1)).heading (across (run_at self.now.runs.items k).way p) z)) }
    {
        let way = self.run(k).way;
        let before = self.run(k - 1);
        let dir = before.heading;
        let port = limits.reached_if(k == 1, dir, self.anchors.source_port.across(way));
        let tip = port.reached_if(self.begins_at_tip(k - 1), dir, before.start().across(way));
        tip.reached_checkpoints(&self.anchors.via, &before, dir, way)
    }

    /// The coordinates at which the run after still begins where it has to.
    fn reached_after(&self, limits: Limits, k: usize) -> Limits
        requires { k + 1 < length self.now.runs.items }
        ensures { (z : ℤ) → IsFromTo result.low result.high z ↔ (IsFromTo limits.low limits.high z
            × ((p : Point) → HasToLeave self.now (k + 1) p →
            IsReached (opposite (run_at self.now.runs.items (k + 1)).heading) (across (run_at self.now.runs.items k).way p) z)) }
    {
        let way = self.run(k).way;
        let after = self.run(k + 1);
        let dir = after.heading.opposite();
        let is_last = k + 2 == self.runs.len();
        let port = limits.reached_if(is_last, dir, self.anchors.target_port.across(way));
        let tip = port.reached_if(self.ends_at_tip(k + 1), dir, after.end().across(way));
        tip.reached_checkpoints(&self.anchors.via, &after, dir, way)
    }

    /// The coordinates at which the run, which is not fixed, may be.
    fn movable_limits(&self, walls: &Walls<'_, '_>, k: usize) -> Limits
        requires route { IsPhaseRoute self.now }
        requires walls { AreWalls (run_at self.now.runs.items k).way walls.now }
        requires first { 0 < k }
        requires last { k + 1 < length self.now.runs.items }
        requires stands { MayStandAt walls.now.solids.now self.now k (run_at self.now.runs.items k).at }
        ensures { (z : ℤ) → MayStandAt walls.now.solids.now self.now k z ↔ IsFromTo result.low result.high z }
    {
        let clear = clear_of(walls, &self.run(k));
        self.reached_after(self.reached_before(clear, k), k)
    }

    /// The run with its limits.
    pub(crate) fn member(&self, walls: &Walls<'_, '_>, k: usize) -> Member
        requires route { IsPhaseRoute self.now }
        requires walls { AreWalls (run_at self.now.runs.items k).way walls.now }
        requires within { k < length self.now.runs.items }
        requires stands { (IsFixed self.now k → ⊥) → MayStandAt walls.now.solids.now self.now k (run_at self.now.runs.items k).at }
        ensures run { result.run ≡ run_at self.now.runs.items k }
        ensures fixed { IsTrue result.fixed ↔ IsFixed self.now k }
        ensures limits { HasLimits walls.now.solids.now self.now k result.low result.high }
        ensures weight { result.weight ≡ self.now.weight }
        ensures member { IsMember result }
    {
        let run = self.run(k);
        let fixed = self.is_fixed(k);
        let limits = if fixed {
            Limits {
                low: run.at,
                high: run.at,
            }
        } else {
            self.movable_limits(walls, k)
        };
        Member {
            run,
            fixed,
            low: limits.low,
            high: limits.high,
            weight: self.weight,
        }
    }
}
