//! Both phases, and the lines that are written after them.
ghost use Rattle.std.specs.Prelude.{◌≤◌, All, IfOk, length};
ghost use Rattle.plane_geom.specs.Floor.{IsSolid};
ghost use Rattle.plane_geom.specs.declared.point.Way.{Way};
ghost use Rattle.separation_model.specs.Bundle.{most_items};
ghost use Rattle.channel_bundles.specs.Route.{runs_of_way};
ghost use Rattle.channel_bundles.specs.Links.{IsNudge};
ghost use Rattle.nudge_phases.specs.Lines.{IsNudged};
ghost use Rattle.nudge_phases.specs.Ready.{AreRaw};
ghost use Rattle.nudge_phases.specs.Ready.{HasLegalWalk};
ghost use Rattle.nudge_phases.specs.Rising.{EdgesRise};

use crate::lines::written_lines;
use crate::phases::phase;
use bumpalo::Bump;
use channel_bundles::PhaseRoute;
use plane_geom::{Solid, Way};
use std::alloc::{AllocError, Global};
use walk_model::WrittenRoute;

/// Nudged lines, in the order of their edges.
#[derive(Debug, Drop)]
pub struct Nudged {
    pub routes: Vec<WrittenRoute>,
}

/// Both phases: phase x moves the vertical runs of the raw routes, phase y the horizontal runs of
/// its result, and then the lines are written. The only error is out of memory.
///
/// The raw routes are in the order of their edges, which differ. The walk of each is legal, its
/// ports lie on its end runs, and all its runs have some length. There are at most 850,000,000 runs
/// of each way, and the wanted nudge is from 0 to 1,000,000 thousandths.
pub fn nudge_routes<'a>(
    alloc: Global,
    solids: &[Solid],
    raw: Vec<PhaseRoute<'a>, &'a Bump>,
    nudge: i64,
) -> Result<Nudged, AllocError>
    requires solids { All IsSolid solids.now }
    requires raw { AreRaw raw.items }
    requires edges { EdgesRise raw.items }
    requires legal { All (HasLegalWalk solids.now) raw.items }
    requires few { (way : Way) → length (runs_of_way way raw.items) ≤ most_items }
    requires nudge { IsNudge nudge }
    ensures { IfOk result (λ n. IsNudged solids.now raw.entry.items nudge n.routes.items) }
{
    let after_x = phase(alloc, solids, raw, Way::Vertical, nudge)?;
    let after_y = phase(alloc, solids, after_x, Way::Horizontal, nudge)?;
    Ok(Nudged {
        routes: written_lines(alloc, &after_y)?,
    })
}
