//! What a new session has beside its scene.
ghost use Rattle.std.specs.Prelude.{◌≡◌, ◌+◌, ◌≤◌, IfOk, length, []};
ghost use Rattle.std.specs.FinMap.{len};
ghost use Rattle.plane_geom.specs.Floor.{IsFloor};
ghost use Rattle.line_arena.specs.Stands.{StandsFor};
ghost use Rattle.scene_model.specs.Answers.{AreAnswers};
ghost use Rattle.scene_model.specs.Routing.{floor_of};
ghost use Rattle.scene_model.specs.Scene.{connectors};

use par_route::Gate;
use route_book::{Book, Changes};
use route_search::Tally;
use scene_store::Scene;
use std::alloc::{AllocError, Global};
use std::thread::Threads;
use undo_log::UndoLog;
use visibility_graph::Graph;

/// The graph of a scene's floor, its right answers, the number of its searches, and a history
/// without steps.
#[derive(Drop)]
pub(crate) struct Start {
    pub(crate) graph: Graph,
    pub(crate) book: Book,
    pub(crate) tally: Tally,
    pub(crate) log: UndoLog<Changes>,
}

impl Start {
    /// The start of a session on the scene, by at most `workers` searches side by side.
    pub(crate) fn searched<R: Threads + Sync, G: Gate>(
        rt: &R,
        alloc: Global,
        scene: &Scene,
        workers: u32,
        gate: &G,
    ) -> Result<Start, AllocError>
        requires some { 1 ≤ workers }
        requires few { workers ≤ 4 }
        ensures floor { IfOk result (λ s. s.graph.floor ≡ floor_of scene.now) }
        ensures fits { IfOk result (λ s. IsFloor s.graph.floor) }
        ensures stands { IfOk result (λ s. StandsFor (floor_of scene.now) s.graph.arena) }
        ensures written { IfOk result (λ s. s.graph.arena.written ≡ len s.graph.arena.lines + len s.graph.arena.crossings) }
        ensures right { IfOk result (λ s. AreAnswers scene.now s.book) }
        ensures searched { IfOk result (λ s. s.tally ≡ length (connectors scene.now)) }
        ensures past { IfOk result (λ s. s.log.past ≡ []) }
        ensures future { IfOk result (λ s. s.log.future ≡ []) }
    {
        scene.valid();
        let graph = drawn(alloc, scene)?;
        let mut tally = Tally::new();
        let book = Book::build(rt, alloc, scene, &graph, workers, gate, &mut tally)?;
        Start::with(alloc, graph, book, tally)
    }

    /// The start of a session on the scene, without threads.
    pub(crate) fn searched_alone(alloc: Global, scene: &Scene) -> Result<Start, AllocError>
        ensures floor { IfOk result (λ s. s.graph.floor ≡ floor_of scene.now) }
        ensures fits { IfOk result (λ s. IsFloor s.graph.floor) }
        ensures stands { IfOk result (λ s. StandsFor (floor_of scene.now) s.graph.arena) }
        ensures written { IfOk result (λ s. s.graph.arena.written ≡ len s.graph.arena.lines + len s.graph.arena.crossings) }
        ensures right { IfOk result (λ s. AreAnswers scene.now s.book) }
        ensures searched { IfOk result (λ s. s.tally ≡ length (connectors scene.now)) }
        ensures past { IfOk result (λ s. s.log.past ≡ []) }
        ensures future { IfOk result (λ s. s.log.future ≡ []) }
    {
        scene.valid();
        let graph = drawn(alloc, scene)?;
        let mut tally = Tally::new();
        let book = Book::build_alone(alloc, scene, &graph, &mut tally)?;
        Start::with(alloc, graph, book, tally)
    }

    /// The start with this graph, book and tally, and a new history.
    fn with(alloc: Global, graph: Graph, book: Book, tally: Tally) -> Result<Start, AllocError>
        ensures graph { IfOk result (λ s. s.graph ≡ graph) }
        ensures book { IfOk result (λ s. s.book ≡ book) }
        ensures tally { IfOk result (λ s. s.tally ≡ tally) }
        ensures past { IfOk result (λ s. s.log.past ≡ []) }
        ensures future { IfOk result (λ s. s.log.future ≡ []) }
    {
        let log = UndoLog::new(alloc)?;
        Ok(Start {
            graph,
            book,
            tally,
            log,
        })
    }
}

/// The graph of the scene's floor.
fn drawn(alloc: Global, scene: &Scene) -> Result<Graph, AllocError>
    ensures floor { IfOk result (λ g. g.floor ≡ floor_of scene.now) }
    ensures fits { IfOk result (λ g. IsFloor g.floor) }
    ensures stands { IfOk result (λ g. StandsFor (floor_of scene.now) g.arena) }
    ensures written { IfOk result (λ g. g.arena.written ≡ len g.arena.lines + len g.arena.crossings) }
{
    let floor = scene.floor()?;
    let graph = Graph::build(alloc, &floor)?;
    graph.arena().laws();
    Ok(graph)
}
