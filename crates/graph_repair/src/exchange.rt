//! Switches a graph between the two floors of a repair.
ghost use Rattle.std.specs.Prelude.{◌≡◌, true, false, not, All, [], ◌∷◌};
ghost use Rattle.plane_geom.specs.Order.{AreOrdered};
ghost use Rattle.line_arena.specs.Stands.{HasLine, IsComplete, StandsFor};
ghost use Rattle.graph_repair.specs.Change.{CountsWrites, LeadsFrom};
ghost use Rattle.graph_repair.specs.Take.{AreTaken};

use crate::repair::Repair;
use line_arena::LineArena;
use plane_geom::Line;
use std::alloc::Global;
use std::mem;
use visibility_graph::{Graph, GraphParts, put_lines};

/// Repairs the graph to the new floor. Takes no memory.
///
/// The graph is the one for which the repair was planned, as `plan` or `revert` left it. `written`
/// rises by the number of added lines (those not on the old floor) and of crossings on an added
/// line, and stops at 2^64 - 1.
pub fn apply(graph: &mut Graph, repair: &mut Repair)
    requires leads { LeadsFrom graph.old repair.old }
    requires planned { repair.old.applied ≡ false }
    ensures applied { repair.new.applied ≡ true }
    ensures there { graph.new.floor ≡ repair.old.floor }
    ensures here { repair.new.floor ≡ graph.old.floor }
    ensures back { LeadsFrom graph.new repair.new }
    ensures written { CountsWrites graph.old.floor graph.new.floor graph.old.arena.written graph.new.arena.written }
{
    exchange(graph, repair);
}

/// Repairs the graph back to the old floor. Takes no memory.
///
/// The graph is the one for which the repair was planned, as `apply` left it. `written` rises by
/// the number of added lines (those not on the new floor) and of crossings on an added line, and
/// stops at 2^64 - 1.
pub fn revert(graph: &mut Graph, repair: &mut Repair)
    requires leads { LeadsFrom graph.old repair.old }
    requires applied { repair.old.applied ≡ true }
    ensures planned { repair.new.applied ≡ false }
    ensures there { graph.new.floor ≡ repair.old.floor }
    ensures here { repair.new.floor ≡ graph.old.floor }
    ensures back { LeadsFrom graph.new repair.new }
    ensures written { CountsWrites graph.old.floor graph.new.floor graph.old.arena.written graph.new.arena.written }
{
    exchange(graph, repair);
}

/// Switches the graph to the repair's floor; the repair then leads back to the floor that the graph
/// had.
fn exchange(graph: &mut Graph, repair: &mut Repair)
    requires { LeadsFrom graph.old repair.old }
    ensures there { graph.new.floor ≡ repair.old.floor }
    ensures here { repair.new.floor ≡ graph.old.floor }
    ensures back { LeadsFrom graph.new repair.new }
    ensures applied { repair.new.applied ≡ not repair.old.applied }
    ensures written { CountsWrites graph.old.floor graph.new.floor graph.old.arena.written graph.new.arena.written }
{
    let mut parts = take(repair.alloc, graph);
    parts.arena.laws();
    take_lines(&mut parts.arena, repair.here.as_slice());
    parts.arena.laws();
    put_lines(
        &mut parts.arena,
        repair.there.as_slice(),
        repair.stay.as_slice(),
    );
    mem::swap(&mut parts.floor, &mut repair.floor);
    mem::swap(&mut repair.here, &mut repair.there);
    repair.applied = !repair.applied;
    *graph = Graph::from_parts(parts);
}

/// Returns the parts of the graph and leaves an empty graph in its place.
pub(crate) fn take(alloc: Global, graph: &mut Graph) -> GraphParts
    ensures floor { result.floor ≡ graph.old.floor }
    ensures arena { result.arena ≡ graph.old.arena }
    ensures stands { StandsFor result.floor result.arena }
{
    mem::replace(graph, Graph::empty(alloc)).into_parts()
}

/// Removes the lines with all their crossings.
fn take_lines(arena: &mut LineArena, lines: &[Line])
    requires there { All (HasLine arena.old) lines.now }
    requires ordered { AreOrdered lines.now }
    requires complete { IsComplete arena.old }
    ensures { AreTaken arena.old arena.new lines.now }
{
    for line in lines {
        take_line(arena, *line);
    }
}

/// Removes the line with all its crossings.
fn take_line(arena: &mut LineArena, line: Line)
    requires there { HasLine arena.old line }
    requires complete { IsComplete arena.old }
    ensures { AreTaken arena.old arena.new (line ∷ []) }
{
    let Some(id) = arena.line_at(line) else {
        unreachable!()
    };
    while let Some(crossing) = arena.first_on_line(id) {
        arena.remove_crossing(crossing);
    }
    arena.remove_line(id);
}
