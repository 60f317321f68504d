//! The written lines of routes.
ghost use Rattle.std.specs.Prelude.{◌≡◌, ◌↔◌, ◌<ℤ◌, All, IfOk, IsTrue, Some};
ghost use Rattle.segment_order.specs.Run.{AreRunsOf};
ghost use Rattle.nudge_phases.specs.Lines.{IsWrittenLine};
ghost use Rattle.nudge_phases.specs.Steps.{AreEach};

use channel_bundles::PhaseRoute;
use plane_geom::{Dir, Points};
use segment_order::Run;
use std::alloc::{AllocError, Global};
use walk_model::WrittenRoute;

/// Whether a step in the direction `dir` continues straight on in `heading`, if there is one.
fn goes_on(heading: Option<Dir>, dir: Dir) -> bool
    ensures { IsTrue result ↔ (heading ≡ Some dir) }
{
    match heading {
        Some(before) => before == dir,
        None => false,
    }
}

/// Whether the run has some length.
fn has_length(run: &Run) -> bool
    ensures { IsTrue result ↔ (run.now.lo <ℤ run.now.hi) }
{
    run.lo < run.hi
}

/// The line through the corners of the route. There is no corner at a run without length, nor where
/// the next run with a length continues in the same heading.
fn written(alloc: Global, route: &PhaseRoute<'_>) -> Result<WrittenRoute, AllocError>
    requires { AreRunsOf route.now.edge route.now.runs.items }
    ensures { IfOk result (IsWrittenLine route.now) }
{
    let mut points = Points::new(alloc);
    let mut at = route.runs[0].start();
    let mut heading = None;
    for run in &route.runs {
        if has_length(run) {
            let straight = goes_on(heading, run.heading);
            if !straight {
                points.push(at)?;
            }
            heading = Some(run.heading);
            at = run.end();
        }
    }
    points.push(at)?;
    Ok(WrittenRoute {
        edge: route.edge,
        points,
    })
}

/// The lines of the routes, in their order.
pub(crate) fn written_lines(
    alloc: Global,
    routes: &[PhaseRoute<'_>],
) -> Result<Vec<WrittenRoute>, AllocError>
    requires { All (λ r. AreRunsOf r.edge r.runs.items) routes.now }
    ensures { IfOk result (λ lines. AreEach IsWrittenLine routes.now lines.items) }
{
    let mut lines = Vec::with_capacity(alloc, routes.len())?;
    for route in routes {
        lines.push(written(alloc, route)?)?;
    }
    Ok(lines)
}
