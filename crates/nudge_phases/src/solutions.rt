//! The solutions of the bundles of a phase, one after another: each moves its runs, and is given up
//! before the next.
ghost use Rattle.std.specs.Prelude.{◌≡◌, All, IfOk, OnOk, length};
ghost use Rattle.separation_model.specs.Bundle.{IsBundle};
ghost use Rattle.channel_bundles.specs.Route.{IsPhaseRoute};
ghost use Rattle.plane_geom.specs.declared.point.Way.{Way};
ghost use Rattle.nudge_phases.specs.Phase.{IsSolutionOf};
ghost use Rattle.nudge_phases.specs.Rising.{EdgesRise};
ghost use Rattle.nudge_phases.specs.Steps.{AreBundlesIn, AreSettledIn, HasPlaceOf, IsSettledIn};

use crate::moves::put_bundle;
use bumpalo::Bump;
use channel_bundles::{PhaseRoute, RunBundle};
use separation_solve::{Bundle, Solution, solve, widest_gap};
use std::alloc::{AllocError, Global};

/// The least positions of the bundle for its widest gap, with the multipliers that show them to be
/// least.
fn settle<'a>(bump: &'a Bump, bundle: &Bundle<'_>) -> Result<Solution<'a>, AllocError>
    requires { IsBundle bundle.now }
    ensures { IfOk result (IsSolutionOf bundle.now) }
{
    let gap = widest_gap(bump, bundle)?;
    solve(bump, bundle, gap)
}

/// Moves the runs of the bundle to the positions of its solution, rounded down.
fn settle_and_put(
    bump: &Bump,
    routes: &mut [PhaseRoute<'_>],
    run_bundle: &RunBundle<'_>,
) -> Result<(), AllocError>
    requires edges { EdgesRise routes.old }
    requires there { All (HasPlaceOf routes.old) run_bundle.now.runs.items }
    requires bundle { IsBundle run_bundle.now.bundle }
    requires items { length run_bundle.now.runs.items ≡ length run_bundle.now.bundle.items.items }
    ensures { OnOk result (IsSettledIn run_bundle.now routes.old routes.new) }
{
    let solution = settle(bump, &run_bundle.bundle)?;
    put_bundle(routes, run_bundle, &solution);
    Ok(())
}

/// Moves the runs of all bundles to the positions of their solutions, rounded down.
pub(crate) fn settle_and_put_all(
    alloc: Global,
    routes: &mut [PhaseRoute<'_>],
    found: &[RunBundle<'_>],
) -> Result<(), AllocError>
    requires routes { All IsPhaseRoute routes.old }
    requires edges { EdgesRise routes.old }
    requires bundles { (way : Way) × AreBundlesIn routes.old way found.now }
    ensures { OnOk result (AreSettledIn found.now routes.old routes.new) }
{
    let mut bump = Bump::new(alloc);
    for run_bundle in found {
        settle_and_put(&bump, routes, run_bundle)?;
        // Where it fails, the arena goes on growing.
        let _ = bump.reset();
    }
    Ok(())
}
