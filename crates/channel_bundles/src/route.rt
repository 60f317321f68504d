//! The routes of a phase, and which of their runs may move.
ghost use Rattle.std.specs.Prelude.{◌≡◌, ◌↔◌, ◌+◌, ◌-◌, ◌<◌, Any, IsTrue, length};
ghost use Rattle.plane_geom.specs.Floor.{Holds};
ghost use Rattle.segment_order.specs.Run.{line_of_run, run_at};

use bumpalo::Bump;
use plane_geom::{Point, Way};
use segment_order::Run;

/// Points that a route has to keep on its runs: its two ports and its checkpoints, which are in the
/// caller's arena.
#[derive(Debug, Drop)]
pub struct RouteAnchors<'a> {
    pub source_port: Point,
    pub target_port: Point,
    pub via: Vec<Point, &'a Bump>,
}

/// A route of a phase, as all its runs in order, in the caller's arena.
///
/// The weight, from 1 to 4, is the factor of the squared displacement of its runs.
#[derive(Debug, Drop)]
pub struct PhaseRoute<'a> {
    pub edge: u32,
    pub runs: Vec<Run, &'a Bump>,
    pub anchors: RouteAnchors<'a>,
    pub weight: u32,
}

impl PhaseRoute<'_> {
    ghost use Rattle.channel_bundles.specs.Route.{IsFixed};

    /// The run at the index, from 0.
    pub fn run(&self, k: usize) -> Run
        requires { k < length self.now.runs.items }
        ensures { result ≡ run_at self.now.runs.items k }
    {
        self.runs[k]
    }

    /// Whether the two runs are parallel. Where two neighbours are parallel, the route doubles back
    /// between them.
    fn are_parallel(&self, i: usize, j: usize) -> bool
        requires i { i < length self.now.runs.items }
        requires j { j < length self.now.runs.items }
        ensures { IsTrue result ↔ ((run_at self.now.runs.items i).way ≡ (run_at self.now.runs.items j).way) }
    {
        self.run(i).way == self.run(j).way
    }

    /// Whether the run is of the way.
    pub fn is_of_way(&self, k: usize, way: Way) -> bool
        requires { k < length self.now.runs.items }
        ensures { IsTrue result ↔ ((run_at self.now.runs.items k).way ≡ way) }
    {
        self.run(k).way == way
    }

    /// Whether the run begins with a doubling back.
    pub fn begins_at_tip(&self, k: usize) -> bool
        requires { k < length self.now.runs.items }
        ensures { IsTrue result ↔ ((0 < k) × ((run_at self.now.runs.items (k - 1)).way ≡ (run_at self.now.runs.items k).way)) }
    {
        k > 0 && self.are_parallel(k - 1, k)
    }

    /// Whether the run ends with a doubling back.
    pub fn ends_at_tip(&self, k: usize) -> bool
        requires { k < length self.now.runs.items }
        ensures { IsTrue result ↔ ((k + 1 < length self.now.runs.items)
            × ((run_at self.now.runs.items (k + 1)).way ≡ (run_at self.now.runs.items k).way)) }
    {
        k + 1 < self.runs.len() && self.are_parallel(k + 1, k)
    }

    /// Whether a checkpoint lies on the run.
    fn has_checkpoint_on(&self, run: &Run) -> bool
        ensures { IsTrue result ↔ Any (Holds (line_of_run run.now)) self.now.anchors.via.items }
    {
        for p in &self.anchors.via {
            if run.holds(*p) {
                return true;
            }
        }
        false
    }

    /// Whether the run keeps its coordinate: it is the first or the last, a checkpoint is on it, or
    /// it begins or ends with a doubling back.
    pub fn is_fixed(&self, k: usize) -> bool
        requires { k < length self.now.runs.items }
        ensures { IsTrue result ↔ IsFixed self.now k }
    {
        if k == 0 || k + 1 == self.runs.len() {
            return true;
        }
        if self.has_checkpoint_on(&self.run(k)) || self.ends_at_tip(k) {
            return true;
        }
        self.begins_at_tip(k)
    }
}
