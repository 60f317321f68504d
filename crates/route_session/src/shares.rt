//! What the routes of a session share, and how often its nudged lines cross.
ghost use Rattle.std.specs.Prelude.{◌≡◌, ◌≤◌, ◌<◌, ◌^◌, All, IfOk, IfSome, length};
ghost use Rattle.shared_paths.specs.Crossings.{crossing_count};
ghost use Rattle.shared_paths.specs.Listed.{AreSharedPaths, runs_in};
ghost use Rattle.route_session.specs.Shares.{CountsCrossings, edge_runs, line_runs, raw_runs};

use crate::session::Session;
use nudge_phases::nudged_lines_are_short;
use plane_geom::Point;
use segment_order::runs_of;
use shared_paths::{EdgeRuns, Runs, SharedPath, crossings, shared};
use std::alloc::{AllocError, Global};
use walk_model::{Answer, WrittenRoute};

/// The runs of the edge's line through the corners.
fn edge_runs(alloc: Global, edge: u32, points: &[Point]) -> Result<EdgeRuns, AllocError>
    requires { length points.now ≤ 2 ^ 32 }
    ensures { IfOk result (λ r. r ≡ edge_runs edge points.now) }
{
    Ok(EdgeRuns {
        edge,
        runs: Runs(runs_of(alloc, edge, points)?),
    })
}

/// The runs of the routes of the answers that have one.
fn raw_routes(alloc: Global, answers: &[Answer]) -> Result<Vec<EdgeRuns>, AllocError>
    requires { All (λ a. IfSome a.route (λ r. length r.points ≤ 2 ^ 32)) answers.now }
    ensures { IfOk result (λ routes. routes.items ≡ raw_runs answers.now) }
{
    let mut routes = Vec::new(alloc);
    for answer in answers {
        if let Some(route) = &answer.route {
            routes.push(edge_runs(alloc, answer.edge, route.points.as_slice())?)?;
        }
    }
    Ok(routes)
}

/// The runs of the lines.
fn drawn_lines(alloc: Global, lines: &[WrittenRoute]) -> Result<Vec<EdgeRuns>, AllocError>
    requires { All (λ l. length l.points ≤ 2 ^ 32) lines.now }
    ensures { IfOk result (λ drawn. drawn.items ≡ line_runs lines.now) }
{
    let mut drawn = Vec::new(alloc);
    for line in lines {
        drawn.push(edge_runs(alloc, line.edge, line.points.as_slice())?)?;
    }
    Ok(drawn)
}

/// How often the lines cross.
fn line_crossings(alloc: Global, lines: &[WrittenRoute]) -> Result<u64, AllocError>
    requires each { All (λ l. length l.points ≤ 2 ^ 32) lines.now }
    requires few { length (runs_in (line_runs lines.now)) < 2 ^ 32 }
    ensures { IfOk result (λ count. count ≡ crossing_count (line_runs lines.now)) }
{
    let drawn = drawn_lines(alloc, lines)?;
    crossings(alloc, &drawn)
}

impl Session {
    /// The paths that the routes of the present scene share, before nudging, in order. The only error is out of memory.
    pub fn shared_paths(&self, alloc: Global) -> Result<Vec<SharedPath>, AllocError>
        ensures { IfOk result (λ paths. AreSharedPaths (raw_runs self.now.book) paths.items) }
    {
        // So the scene is known to be valid.
        self.scene().valid();
        let routes = raw_routes(alloc, self.book().answers())?;
        shared(alloc, &routes)
    }

    /// How often the nudged lines of the present scene cross. The only error is out of memory.
    pub fn crossings(&self, alloc: Global) -> Result<u64, AllocError>
        ensures { IfOk result (CountsCrossings self.now.world.present self.now.book) }
    {
        // So the scene is known to be valid.
        self.scene().valid();
        nudged_lines_are_short();
        let nudged = self.nudged()?;
        line_crossings(alloc, &nudged.routes)
    }
}
