//! Searches for the connectors of a scene.
ghost use Rattle.std.specs.Prelude.{◌≡◌, ◌≤◌, All, IfOk, OnOk, length, map};
ghost use Rattle.std.specs.List.{AllZip};
ghost use Rattle.line_arena.specs.Count.{counted_by};
ghost use Rattle.par_route.specs.Routes.{AreAnswers, MayBeSearched};
ghost use Rattle.route_book.specs.Search.{AreRising, IsAnswerWith, IsConnector, IsTaskWith};
ghost use Rattle.scene_model.specs.Routing.{floor_of, solids};
ghost use Rattle.scene_model.specs.Scene.{connectors};
ghost use Rattle.scene_model.specs.Valid.{IsValid};

use crate::answers::AnswerList;
use line_arena::LineArena;
use par_route::{Gate, route_all, route_each};
use plane_geom::Solid;
use route_search::Tally;
use scene_store::Scene;
use std::alloc::{AllocError, Global};
use std::thread::Threads;
use visibility_graph::Graph;
use walk_model::{Route, Task};

/// The numbers of the scene's connectors, in order.
pub(crate) fn connector_numbers(alloc: Global, scene: &Scene) -> Result<Vec<u32>, AllocError>
    ensures numbers { IfOk result (λ ns. ns.items ≡ map (λ e. e.number) (connectors scene.now)) }
    ensures order { IfOk result (λ ns. AreRising ns.items) }
    ensures connectors { IfOk result (λ ns. All (IsConnector scene.now) ns.items) }
    ensures valid { IsValid scene.now }
{
    let mut numbers = Vec::new(alloc);
    for edge in scene.edges() {
        if edge.from != edge.to {
            numbers.push(edge.number)?;
        }
    }
    Ok(numbers)
}

/// Searches for connectors of the scene on its graph.
#[derive(Drop)]
pub(crate) struct Searches<'a> {
    pub alloc: Global,
    pub scene: &'a Scene,
    pub graph: &'a Graph,
}

/// Tasks, and the arena and the solids on which they may be searched.
#[derive(Drop)]
struct Asked<'a> {
    arena: &'a LineArena,
    solids: &'a [Solid],
    tasks: Vec<Task>,
}

impl<'a> Searches<'a> {
    /// The tasks of the connectors with these numbers, in order.
    fn tasks(&self, numbers: &[u32]) -> Result<Vec<Task>, AllocError>
        requires { All (IsConnector self.now.scene.now) numbers.now }
        ensures { IfOk result (λ tasks. AllZip (IsTaskWith self.now.scene.now) numbers.now tasks.items) }
    {
        let mut tasks = Vec::with_capacity(self.alloc, numbers.len())?;
        for number in numbers {
            tasks.push(self.scene.task(*number)?)?;
        }
        Ok(tasks)
    }

    /// What a search for the connectors with these numbers is asked.
    fn asked(&self, numbers: &[u32]) -> Result<Asked<'a>, AllocError>
        requires valid { IsValid self.now.scene.now }
        requires graph { self.now.graph.now.floor ≡ floor_of self.now.scene.now }
        requires connectors { All (IsConnector self.now.scene.now) numbers.now }
        ensures tasks { IfOk result (λ a. AllZip (IsTaskWith self.now.scene.now) numbers.now a.tasks.items) }
        ensures solids { IfOk result (λ a. a.solids.now ≡ solids self.now.scene.now) }
        ensures searched { IfOk result (λ a. All (MayBeSearched a.arena.now a.solids.now) a.tasks.items) }
    {
        let tasks = self.tasks(numbers)?;
        let arena = self.graph.arena();
        let solids = self.graph.floor().solids.as_slice();
        Ok(Asked {
            arena,
            solids,
            tasks,
        })
    }

    /// The routes that were found for the tasks of the connectors, as answers under their numbers.
    fn answers_of(
        &self,
        numbers: &[u32],
        asked: &Asked,
        routes: Vec<Option<Route>>,
    ) -> Result<AnswerList, AllocError>
        requires order { AreRising numbers.now }
        requires tasks { AllZip (IsTaskWith self.now.scene.now) numbers.now asked.now.tasks.items }
        requires solids { asked.now.solids.now ≡ solids self.now.scene.now }
        requires routes { AreAnswers asked.now.solids.now asked.now.tasks.items routes.items }
        ensures { IfOk result (AllZip (IsAnswerWith self.now.scene.now) numbers.now) }
    {
        AnswerList::of_routes(self.alloc, numbers, routes)
    }

    /// The right answers of the connectors with these numbers, in order, by at most `workers`
    /// searches side by side.
    pub(crate) fn answers<R: Threads + Sync, G: Gate>(
        &self,
        rt: &R,
        numbers: &[u32],
        workers: u32,
        gate: &G,
        tally: &mut Tally,
    ) -> Result<AnswerList, AllocError>
        requires some { 1 ≤ workers }
        requires few { workers ≤ 4 }
        requires valid { IsValid self.now.scene.now }
        requires graph { self.now.graph.now.floor ≡ floor_of self.now.scene.now }
        requires order { AreRising numbers.now }
        requires connectors { All (IsConnector self.now.scene.now) numbers.now }
        ensures answers { IfOk result (AllZip (IsAnswerWith self.now.scene.now) numbers.now) }
        ensures tally { OnOk result (tally.new ≡ counted_by (length numbers.now) tally.old) }
        ensures never_falls { tally.old ≤ tally.new }
    {
        tally.bounded();
        let asked = self.asked(numbers)?;
        let routes = route_all(
            rt,
            self.alloc,
            asked.arena,
            asked.solids,
            &asked.tasks,
            workers,
            gate,
            tally,
        )?;
        self.answers_of(numbers, &asked, routes)
    }

    /// The right answers of the connectors with these numbers, in order, without threads.
    pub(crate) fn answers_alone(
        &self,
        numbers: &[u32],
        tally: &mut Tally,
    ) -> Result<AnswerList, AllocError>
        requires valid { IsValid self.now.scene.now }
        requires graph { self.now.graph.now.floor ≡ floor_of self.now.scene.now }
        requires order { AreRising numbers.now }
        requires connectors { All (IsConnector self.now.scene.now) numbers.now }
        ensures answers { IfOk result (AllZip (IsAnswerWith self.now.scene.now) numbers.now) }
        ensures tally { OnOk result (tally.new ≡ counted_by (length numbers.now) tally.old) }
        ensures never_falls { tally.old ≤ tally.new }
    {
        tally.bounded();
        let asked = self.asked(numbers)?;
        let routes = route_each(self.alloc, asked.arena, asked.solids, &asked.tasks, tally)?;
        self.answers_of(numbers, &asked, routes)
    }
}
