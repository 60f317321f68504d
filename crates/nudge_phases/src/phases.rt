//! One phase of nudging.
ghost use Rattle.std.specs.Prelude.{◌≤◌, All, IfOk, length};
ghost use Rattle.plane_geom.specs.Floor.{IsSolid};
ghost use Rattle.separation_model.specs.Bundle.{most_items};
ghost use Rattle.channel_bundles.specs.Route.{IsPhaseRoute, runs_of_way};
ghost use Rattle.channel_bundles.specs.Limits.{MayMove};
ghost use Rattle.channel_bundles.specs.Links.{IsNudge};
ghost use Rattle.nudge_phases.specs.Phase.{IsPhase};
ghost use Rattle.nudge_phases.specs.Rising.{EdgesRise};

use crate::moves::follow_all;
use crate::solutions::settle_and_put_all;
use bumpalo::Bump;
use channel_bundles::{PhaseRoute, few_bundles};
use plane_geom::{Solid, Way};
use std::alloc::{AllocError, Global};

/// One phase: the runs of the way go to their least positions, rounded down, and the corners
/// follow. The only error is out of memory.
///
/// The routes are in the order of their edges, which differ. All other conditions are those of
/// `channel_bundles::few_bundles`: there are at most 850,000,000 runs of the way, the wanted nudge is
/// from 0 to 1,000,000 thousandths, and each movable run may stay at its coordinate.
pub fn phase<'a>(
    alloc: Global,
    solids: &[Solid],
    mut routes: Vec<PhaseRoute<'a>, &'a Bump>,
    way: Way,
    nudge: i64,
) -> Result<Vec<PhaseRoute<'a>, &'a Bump>, AllocError>
    requires solids { All IsSolid solids.now }
    requires routes { All IsPhaseRoute routes.items }
    requires edges { EdgesRise routes.items }
    requires movable { All (MayMove solids.now way) routes.items }
    requires few { length (runs_of_way way routes.items) ≤ most_items }
    requires nudge { IsNudge nudge }
    ensures { IfOk result (λ after. IsPhase solids.now routes.entry.items way nudge after.items) }
{
    let bump = Bump::new(alloc);
    let found = few_bundles(alloc, &bump, solids, &routes, way, nudge)?;
    settle_and_put_all(alloc, &mut routes, &found)?;
    follow_all(&mut routes, way);
    Ok(routes)
}
