//! The rest of a walk: its cost, runs and sum of run coordinates.
ghost use Rattle.std.specs.Prelude.{◌≡◌, ◌≢◌, ◌+◌, ◌*◌, ◌<◌, ◌≤◌, ◌^◌, ◌+ℤ◌, unsigned_abs};
ghost use Rattle.move_model.specs.Ahead.{with_stretch};
ghost use Rattle.plane_geom.specs.Along.{across, way_of};
ghost use Rattle.walk_model.specs.Cost.{turn};

use plane_geom::{Dir, Point};

/// Steps in one direction, from a point on.
#[derive(Clone, Copy, Debug, PartialEq, Eq, Hash)]
pub struct Stretch {
    pub from: Point,
    pub dir: Dir,
    pub steps: u64,
}

/// The rest of a walk, compared as walks are: by cost, by the number of runs that begin, and by the
/// sum of their coordinates (`lean`).
///
/// `cost` and `lean` are in thousandths.
#[derive(Clone, Copy, Debug, PartialEq, Eq, PartialOrd, Ord, Hash)]
pub struct Ahead {
    pub cost: u64,
    pub runs: u32,
    pub lean: i64,
}

impl Ahead {
    /// The same with one more run, at the coordinate `across`.
    fn with_run(self, across: i64) -> Ahead
        requires runs { self.runs + 1 < 2 ^ 32 }
        requires lean { unsigned_abs self.lean + unsigned_abs across < 2 ^ 63 }
        ensures cost { result.cost ≡ self.cost }
        ensures runs { result.runs ≡ self.runs + 1 }
        ensures lean { result.lean ≡ self.lean +ℤ across }
    {
        Ahead {
            runs: self.runs + 1,
            lean: self.lean + across,
            ..self
        }
    }

    /// The rest of a walk that enters the stretch with `heading`, where `self` is what remains
    /// after the stretch.
    ///
    /// A turn costs the penalty once and a doubling back twice.
    pub fn behind(self, heading: Dir, stretch: Stretch, penalty: u64) -> Ahead
        requires cost { self.cost + stretch.steps + penalty * 2 < 2 ^ 64 }
        requires runs { self.runs + 1 < 2 ^ 32 }
        requires lean { unsigned_abs self.lean + unsigned_abs (across (way_of stretch.dir) stretch.from) < 2 ^ 63 }
        ensures { result ≡ with_stretch penalty heading stretch self }
    {
        let cost = self.cost + stretch.steps;
        if heading == stretch.dir {
            return Ahead { cost, ..self };
        }
        let bends = bends_between(heading, stretch.dir);
        let costlier = Ahead {
            cost: cost + penalty * bends,
            ..self
        };
        costlier.with_run(stretch.from.across(stretch.dir.way()))
    }
}

/// The number of bends between two different directions.
fn bends_between(from: Dir, to: Dir) -> u64
    requires { from ≢ to }
    ensures bends { result ≡ turn from to }
    ensures few { result ≤ 2 }
{
    if from == to.opposite() { 2 } else { 1 }
}
