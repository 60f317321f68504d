//! The verdict on a drawn line.
ghost use Rattle.std.specs.Prelude.{List, All};
ghost use Rattle.plane_geom.specs.Rect.{RectIsOnSheet};
ghost use Rattle.plane_geom.specs.declared.point.Point.{Point};
ghost use Rattle.plane_geom.specs.declared.rect.Solid.{Solid};
ghost use Rattle.walk_model.specs.Legal.{IsTask};
ghost use Rattle.walk_model.specs.Line.{IsPolyline};
ghost use Rattle.walk_model.specs.declared.task.Task.{Task};
ghost use Rattle.route_check.specs.Verdict.{HasOneVerdict, IsVerdict};

use crate::choice::{end_choice, start_choice};
use crate::hit::first_hit;
use crate::straight::first_slanted;
use plane_geom::{Point, Solid};
use walk_model::{Task, cost_of, passed_between};

/// The first rule that a drawn line breaks. Segments and checkpoints count from 1.
#[derive(Clone, Copy, Debug, PartialEq, Eq, Hash)]
pub enum Breach {
    /// The segment is the first that is neither vertical nor horizontal.
    Slanted { segment: u32 },
    /// The line does not begin with the stub of a start choice.
    StartOff,
    /// The line does not end with the reversed stub of an end choice, after the start's stub.
    EndOff,
    /// The first step that meets a solid which it may not meet, and the first such solid.
    Hits { segment: u32, node: i64 },
    /// The first checkpoint that is not passed in order between the ports.
    MissesVia { place: u32 },
}

/// The cost of a line that is drawn for a connector, or the first rule that it breaks.
///
/// Costs and coordinates are in thousandths of a GML unit. The line goes straight from corner point
/// to corner point; it may have equal neighbours, and corners at which it goes straight on. If it
/// is legal with several choices of pins and directions, its cost is that with the cheapest. Takes
/// no memory. Solids and points lie on the sheet, and there are at most 40,000,000 points; a line
/// without points is `StartOff`.
pub fn check(solids: &[Solid], task: &Task, points: &[Point]) -> Result<u64, Breach>
    requires solids_within { All (λ s. RectIsOnSheet s.rect) solids.now }
    requires task { IsTask task.now }
    requires line { IsPolyline points.now }
    ensures { IsVerdict solids.now task.now points.now result }
{
    let Some((&first, rest)) = points.split_first() else {
        return Err(Breach::StartOff);
    };
    if let Some(segment) = first_slanted(first, rest) {
        return Err(Breach::Slanted { segment });
    }
    // The cost of a walk whose bends cost nothing is its number of steps.
    let steps = cost_of(points, 0);
    let Some(start) = start_choice(task.starts.as_slice(), first, rest) else {
        return Err(Breach::StartOff);
    };
    let leave = start.pin.distance(start.port);
    let Some(end) = end_choice(task.ends.as_slice(), first, rest, steps - leave) else {
        return Err(Breach::EndOff);
    };
    let enter = steps - end.pin.distance(end.port);
    if let Some(hit) = first_hit(solids, &start, &end, steps, first, rest) {
        return Err(Breach::Hits {
            segment: hit.segment,
            node: hit.node,
        });
    }
    let via = task.via.as_slice();
    let passed = passed_between(points, leave, enter, via);
    if passed < via.len() {
        return Err(Breach::MissesVia {
            place: passed as u32 + 1,
        });
    }
    Ok(cost_of(points, task.penalty) + start.cost + end.cost)
}

/// A line has at most one verdict.
pub fn one_verdict()
    ensures { (solids : List Solid) (task : Task) (points : List Point) → IsTask task →
        HasOneVerdict solids task points }
{}
