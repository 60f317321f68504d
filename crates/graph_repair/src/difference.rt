//! The changes from one floor to another, and the room for them.
ghost use Rattle.std.specs.Prelude.{◌≡◌, ◌-◌, ◌≤◌, false, length, IfOk, OnOk};
ghost use Rattle.plane_geom.specs.Floor.{IsFloor};
ghost use Rattle.plane_geom.specs.Order.{AreOrdered};
ghost use Rattle.visibility_graph.specs.Meeting.{coming};
ghost use Rattle.graph_repair.specs.Change.{LeadsFrom};

use crate::compare::{Difference, compare};
use crate::exchange::take;
use crate::hull::hull_of_difference;
use crate::repair::Repair;
use plane_geom::{Floor, Line};
use std::alloc::{AllocError, Global};
use sweep_lines::lines_near;
use visibility_graph::{Graph, crossings_of};

/// Plans a repair of the graph to the new floor, and takes all memory that the repair and the way
/// back will need. The repair keeps a copy of the floor.
///
/// The graph's floor, lines, crossings and `written` stay as they are, even when out of memory,
/// which is the only error.
pub fn plan(alloc: Global, graph: &mut Graph, new: &Floor) -> Result<Repair, AllocError>
    requires new_floor { IsFloor new.now }
    ensures floor { graph.new.floor ≡ graph.old.floor }
    ensures lines { graph.new.arena.lines ≡ graph.old.arena.lines }
    ensures crossings { graph.new.arena.crossings ≡ graph.old.arena.crossings }
    ensures written { graph.new.arena.written ≡ graph.old.arena.written }
    ensures leads { IfOk result (λ r. LeadsFrom graph.new r) }
    ensures planned { IfOk result (λ r. r.applied ≡ false) }
    ensures new_floor { IfOk result (λ r. r.floor ≡ new.now) }
{
    let hull = hull_of_difference(graph.floor(), new);
    let new_lines = lines_near(alloc, new, &hull)?;
    let old_lines = graph.arena().lines_in_order();
    let Difference { stay, here, there } = compare(alloc, &hull, old_lines, new_lines.as_slice())?;
    graph.arena().laws();
    make_room(
        alloc,
        graph,
        stay.as_slice(),
        here.as_slice(),
        there.as_slice(),
    )?;
    let kept = new.copy(alloc)?;
    Ok(Repair {
        alloc,
        floor: kept,
        stay,
        here,
        there,
        applied: false,
    })
}

/// Makes room for the lines and crossings that are added, less those that are removed.
fn make_room(
    alloc: Global,
    graph: &mut Graph,
    stay: &[Line],
    here: &[Line],
    there: &[Line],
) -> Result<(), AllocError>
    requires stay_ordered { AreOrdered stay.now }
    requires here_ordered { AreOrdered here.now }
    requires there_ordered { AreOrdered there.now }
    ensures floor { graph.new.floor ≡ graph.old.floor }
    ensures lines { graph.new.arena.lines ≡ graph.old.arena.lines }
    ensures crossings { graph.new.arena.crossings ≡ graph.old.arena.crossings }
    ensures written { graph.new.arena.written ≡ graph.old.arena.written }
    ensures room_for_lines { OnOk result (length there.now - length here.now ≤ graph.new.arena.spare_lines) }
    ensures room_for_crossings { OnOk result (coming there.now stay.now - coming here.now stay.now ≤ graph.new.arena.spare_crossings) }
{
    let lines = there.len().saturating_sub(here.len());
    let come = crossings_of(there, stay)?;
    let go = crossings_of(here, stay)?;
    let mut parts = take(alloc, graph);
    let reserved = parts.arena.reserve(lines, come.saturating_sub(go));
    *graph = Graph::from_parts(parts);
    reserved
}
