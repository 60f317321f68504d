//! The runs of a route.
ghost use Rattle.std.specs.Prelude.{◌≡◌, ◌≤◌, ◌^◌, IfOk, length};
ghost use Rattle.segment_order.specs.Run.{AreCorners, AreRunsOf, run_between, runs_along};

use plane_geom::{Dir, Point, Way};
use std::alloc::{AllocError, Allocator};

/// A straight piece of the route of an edge, between two neighbouring corners.
///
/// It runs at the coordinate `at` from `lo` to `hi`, in thousandths of a GML unit. Its place is
/// counted from 1 along the route. The heading is the direction in which the route goes along it,
/// even if it has no length.
#[derive(Clone, Copy, Debug, PartialEq, Eq)]
pub struct Run {
    pub edge: u32,
    pub place: u32,
    pub way: Way,
    pub heading: Dir,
    pub at: i64,
    pub lo: i64,
    pub hi: i64,
}

impl Run {
    ghost use Rattle.std.specs.Prelude.{◌↔◌, IsTrue};
    ghost use Rattle.plane_geom.specs.Floor.{Holds};
    ghost use Rattle.segment_order.specs.Run.{end_in, end_of_run, line_of_run, start_of_run};

    /// The end at which one who travels in the direction leaves the run.
    fn end_in(&self, dir: Dir) -> Point
        ensures { result ≡ end_in dir self.now }
    {
        let along = match dir {
            Dir::East | Dir::South => self.hi,
            Dir::West | Dir::North => self.lo,
        };
        match self.way {
            Way::Vertical => Point {
                x: self.at,
                y: along,
            },
            Way::Horizontal => Point {
                x: along,
                y: self.at,
            },
        }
    }

    /// The point where the run begins.
    pub fn start(&self) -> Point
        ensures { result ≡ start_of_run self.now }
    {
        self.end_in(self.heading.opposite())
    }

    /// The point where the run ends.
    pub fn end(&self) -> Point
        ensures { result ≡ end_of_run self.now }
    {
        self.end_in(self.heading)
    }

    /// Whether the point lies on the run, its ends included.
    pub fn holds(&self, p: Point) -> bool
        ensures { IsTrue result ↔ Holds (line_of_run self.now) p }
    {
        if p.across(self.way) != self.at {
            return false;
        }
        let along = p.along(self.way);
        self.lo <= along && along <= self.hi
    }
}

/// The run from one corner to the next.
fn run_between(edge: u32, place: u32, from: Point, to: Point) -> Run
    ensures { result ≡ run_between edge place from to }
{
    let heading = from.heading(to);
    let way = heading.way();
    let (start, end) = (from.along(way), to.along(way));
    Run {
        edge,
        place,
        way,
        heading,
        at: from.across(way),
        lo: start.min(end),
        hi: start.max(end),
    }
}

/// The runs of the edge's route through these corners, in order, in memory that is taken at once.
/// The only error is out of memory.
pub fn runs_of<A: Allocator>(
    alloc: A,
    edge: u32,
    points: &[Point],
) -> Result<Vec<Run, A>, AllocError>
    requires { length points.now ≤ 2 ^ 32 }
    ensures along { IfOk result (λ runs. runs.items ≡ runs_along edge 1 points.now) }
    ensures route { IfOk result (λ runs. AreCorners points.now → AreRunsOf edge runs.items) }
{
    let mut runs = Vec::with_capacity(alloc, points.len().saturating_sub(1))?;
    for k in 1..points.len() {
        runs.push(run_between(edge, k as u32, points[k - 1], points[k]))?;
    }
    Ok(runs)
}
