//! A floor together with the arena that represents it.
ghost use Rattle.std.specs.Prelude.{◌≡◌, ◌+◌, ◌≤ℤ◌, [], All, Contains, IfOk};
ghost use Rattle.std.specs.FinMap.{len};
ghost use Rattle.plane_geom.specs.Floor.{IsFloor};
ghost use Rattle.plane_geom.specs.Order.{AreOrdered};
ghost use Rattle.line_arena.specs.Stands.{IsComplete, StandsFor};
ghost use Rattle.visibility_graph.specs.Fill.{AreApart, AreLines};

use crate::fill::put_lines;
use crate::meeting::{added, crossings_of};
use line_arena::LineArena;
use plane_geom::{Floor, Line, Points, Solids};
use std::alloc::{AllocError, Global};
use std::marker::Model;
use sweep_lines::all_lines;

/// A floor and the arena that holds exactly its kept lines and their crossings.
#[derive(Drop)]
pub struct Graph {
    floor: Floor,
    arena: LineArena,
}

/// The floor and the arena of a graph, separately.
#[derive(Drop)]
pub struct GraphParts {
    pub arena: LineArena,
    pub floor: Floor,
}

impl Model for Graph {
    ghost use Rattle.visibility_graph.specs.Drawing.{Drawing};

    ghost Value = { Drawing };

    ghost use Rattle.std.specs.Coded.{codes};
    ghost use Rattle.line_arena.specs.Arena.{arena_code};

    ghost coded = { Prim.hlevel (codes, arena_code) };

    ghost use Rattle.line_arena.specs.Stands.{StandsFor};

    ghost view = { λ a. record { floor = a.floor; arena = a.arena } };

    ghost invariant = { λ a. StandsFor a.floor a.arena };
}

impl Graph {
    /// The graph of the floor. `written` of its arena is the number of its lines and crossings.
    ///
    /// The only error is out of memory.
    pub fn build(alloc: Global, floor: &Floor) -> Result<Graph, AllocError>
        requires floor { IsFloor floor.now }
        ensures floor { IfOk result (λ g. g.floor ≡ floor.now) }
        ensures written { IfOk result (λ g. g.arena.written ≡ len g.arena.lines + len g.arena.crossings) }
    {
        let floor = floor.copy(alloc)?;
        let lines = all_lines(alloc, &floor)?;
        let arena = filled(alloc, lines.as_slice())?;
        Ok(Graph { floor, arena })
    }

    /// The graph of the floor without solids and anchors. Takes no memory.
    pub fn empty(alloc: Global) -> Graph
        ensures solids { result.floor.solids ≡ [] }
        ensures anchors { result.floor.anchors ≡ [] }
        ensures written { result.arena.written ≡ 0 }
    {
        let solids = Solids(Vec::new(alloc));
        let anchors = Points::new(alloc);
        Graph {
            floor: Floor { solids, anchors },
            arena: LineArena::new(alloc),
        }
    }

    /// The lines and the crossings.
    pub fn arena(&self) -> &LineArena
        ensures arena { result.now ≡ self.now.arena }
        ensures stands { StandsFor self.now.floor result.now }
    {
        &self.arena
    }

    /// The floor that the arena represents.
    pub fn floor(&self) -> &Floor
        ensures { result.now ≡ self.now.floor }
    {
        &self.floor
    }

    /// The floor and the arena, separately. Takes no memory.
    pub fn into_parts(self) -> GraphParts
        ensures floor { result.floor ≡ self.floor }
        ensures arena { result.arena ≡ self.arena }
        ensures stands { StandsFor result.floor result.arena }
    {
        GraphParts {
            arena: self.arena,
            floor: self.floor,
        }
    }

    /// The graph of a floor and an arena that represents it. Takes no memory.
    pub fn from_parts(parts: GraphParts) -> Graph
        requires { StandsFor parts.floor parts.arena }
        ensures floor { result.floor ≡ parts.floor }
        ensures arena { result.arena ≡ parts.arena }
    {
        Graph {
            floor: parts.floor,
            arena: parts.arena,
        }
    }
}

/// An arena with the lines, which are in order and apart, and all their crossings.
fn filled(alloc: Global, lines: &[Line]) -> Result<LineArena, AllocError>
    requires ordered { AreOrdered lines.now }
    requires long { All (λ l. l.lo ≤ℤ l.hi) lines.now }
    requires apart { AreApart (Contains lines.now) }
    ensures lines { IfOk result (λ a. AreLines a lines.now) }
    ensures complete { IfOk result IsComplete }
    ensures written { IfOk result (λ a. a.written ≡ len a.lines + len a.crossings) }
{
    let crossings = crossings_of(lines, &[])?;
    // The number of writes has to fit `written`.
    added(lines.len(), crossings)?;
    let mut arena = LineArena::new(alloc);
    arena.reserve(lines.len(), crossings)?;
    put_lines(&mut arena, lines, &[]);
    Ok(arena)
}
