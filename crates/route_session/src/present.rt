//! The present scene with its graph and its book.
ghost use Rattle.std.specs.Prelude.{◌≡◌, ◌<◌, ◌≤◌, ◌^◌, ℕ, true, IfOk, OnErr, OnOk};
ghost use Rattle.std.specs.Bool.{OnFalse, OnTrue};
ghost use Rattle.plane_geom.specs.Floor.{IsFloor};
ghost use Rattle.graph_repair.specs.Change.{CountsWrites, LeadsFrom};
ghost use Rattle.route_book.specs.Exchange.{CountsStale, turned};
ghost use Rattle.line_arena.specs.Count.{counted_by};
ghost use Rattle.scene_model.specs.Answers.{AreAnswers};
ghost use Rattle.scene_model.specs.Routing.{floor_of};

use graph_repair::{Repair, apply, plan, revert};
use par_route::Gate;
use route_book::{Book, Changes};
use route_search::Tally;
use scene_store::Scene;
use std::alloc::{AllocError, Global};
use std::thread::Threads;
use visibility_graph::Graph;

/// A scene, the graph of its floor, its answers, and the number of searches so far.
#[derive(Drop)]
pub(crate) struct Present {
    pub(crate) alloc: Global,
    pub(crate) scene: Scene,
    pub(crate) graph: Graph,
    pub(crate) book: Book,
    pub(crate) tally: Tally,
}

impl Present {
    /// Repairs the graph to the floor of the other scene. Takes all memory before the graph
    /// changes.
    pub(crate) fn repair(&mut self, other: &Scene) -> Result<Repair, AllocError>
        requires { IsFloor self.old.graph.floor }
        ensures scene { self.new.scene ≡ self.old.scene }
        ensures book { self.new.book ≡ self.old.book }
        ensures tally { self.new.tally ≡ self.old.tally }
        ensures floor { OnOk result (self.new.graph.floor ≡ floor_of other.now) }
        ensures fits { IsFloor self.new.graph.floor }
        ensures written { OnOk result (CountsWrites self.old.graph.floor self.new.graph.floor self.old.graph.arena.written self.new.graph.arena.written) }
        ensures leads { IfOk result (λ r. LeadsFrom self.new.graph r) }
        ensures applied { IfOk result (λ r. r.applied ≡ true) }
        ensures back { IfOk result (λ r. r.floor ≡ self.old.graph.floor) }
        ensures err_floor { OnErr result (self.new.graph.floor ≡ self.old.graph.floor) }
        ensures err_written { OnErr result (self.new.graph.arena.written ≡ self.old.graph.arena.written) }
    {
        let floor = other.floor()?;
        let mut repair = plan(self.alloc, &mut self.graph, &floor)?;
        apply(&mut self.graph, &mut repair);
        Ok(repair)
    }

    /// Repairs the graph to the floor of the other scene, and finds the exchange of answers for the
    /// book. When out of memory, the graph is again that of the present scene's floor.
    pub(crate) fn follow<R: Threads + Sync, G: Gate>(
        &mut self,
        rt: &R,
        other: &Scene,
        workers: u32,
        gate: &G,
    ) -> Result<Changes, AllocError>
        requires some { 1 ≤ workers }
        requires few { workers ≤ 4 }
        requires fits { IsFloor self.old.graph.floor }
        requires right { AreAnswers self.old.scene self.old.book }
        ensures scene { self.new.scene ≡ self.old.scene }
        ensures book { self.new.book ≡ self.old.book }
        ensures here { IfOk result (λ c. c.here ≡ self.old.book) }
        ensures there { IfOk result (λ c. AreAnswers other.now c.there) }
        ensures fits { IsFloor self.new.graph.floor }
        ensures floor { OnOk result (self.new.graph.floor ≡ floor_of other.now) }
        ensures written { OnOk result (CountsWrites self.old.graph.floor self.new.graph.floor self.old.graph.arena.written self.new.graph.arena.written) }
        ensures tally { OnOk result (CountsStale self.old.scene self.old.book other.now self.old.tally self.new.tally) }
        ensures err_floor { OnErr result (self.new.graph.floor ≡ self.old.graph.floor) }
        ensures err_written { OnErr result ((n : ℕ) × (self.new.graph.arena.written ≡ counted_by n self.old.graph.arena.written)) }
        ensures err_tally { OnErr result ((n : ℕ) × (self.new.tally ≡ counted_by n self.old.tally)) }
    {
        self.bounded();
        let repair = self.repair(other)?;
        let mut searches = self.tally.split();
        let found = self.book.follow(
            rt,
            &self.scene,
            other,
            &self.graph,
            workers,
            gate,
            &mut searches,
        );
        self.settle(repair, searches, found.is_err());
        found
    }

    /// Repairs the graph to the floor of the other scene, and finds the exchange of answers for the
    /// book, without threads. When out of memory, the graph is again that of the present scene's
    /// floor.
    pub(crate) fn follow_alone(&mut self, other: &Scene) -> Result<Changes, AllocError>
        requires fits { IsFloor self.old.graph.floor }
        requires right { AreAnswers self.old.scene self.old.book }
        ensures scene { self.new.scene ≡ self.old.scene }
        ensures book { self.new.book ≡ self.old.book }
        ensures here { IfOk result (λ c. c.here ≡ self.old.book) }
        ensures there { IfOk result (λ c. AreAnswers other.now c.there) }
        ensures fits { IsFloor self.new.graph.floor }
        ensures floor { OnOk result (self.new.graph.floor ≡ floor_of other.now) }
        ensures written { OnOk result (CountsWrites self.old.graph.floor self.new.graph.floor self.old.graph.arena.written self.new.graph.arena.written) }
        ensures tally { OnOk result (CountsStale self.old.scene self.old.book other.now self.old.tally self.new.tally) }
        ensures err_floor { OnErr result (self.new.graph.floor ≡ self.old.graph.floor) }
        ensures err_written { OnErr result ((n : ℕ) × (self.new.graph.arena.written ≡ counted_by n self.old.graph.arena.written)) }
        ensures err_tally { OnErr result ((n : ℕ) × (self.new.tally ≡ counted_by n self.old.tally)) }
    {
        self.bounded();
        let repair = self.repair(other)?;
        let mut searches = self.tally.split();
        let found = self
            .book
            .follow_alone(&self.scene, other, &self.graph, &mut searches);
        self.settle(repair, searches, found.is_err());
        found
    }

    /// The law that both counts are within their limits. Does nothing.
    fn bounded(&self)
        ensures tally { self.now.tally < 2 ^ 64 }
        ensures written { self.now.graph.arena.written < 2 ^ 64 }
    {
        self.tally.bounded();
        self.graph.arena().laws();
    }

    /// Counts the searches, and reverts the repair if they failed.
    fn settle(&mut self, mut repair: Repair, searches: Tally, failed: bool)
        requires leads { LeadsFrom self.old.graph repair }
        requires applied { repair.applied ≡ true }
        requires fits { IsFloor self.old.graph.floor }
        requires back { IsFloor repair.floor }
        ensures scene { self.new.scene ≡ self.old.scene }
        ensures book { self.new.book ≡ self.old.book }
        ensures tally { self.new.tally ≡ counted_by searches self.old.tally }
        ensures fits { IsFloor self.new.graph.floor }
        ensures stays { OnFalse failed (self.new.graph ≡ self.old.graph) }
        ensures floor { OnTrue failed (self.new.graph.floor ≡ repair.floor) }
        ensures written { OnTrue failed ((n : ℕ) × (self.new.graph.arena.written ≡ counted_by n self.old.graph.arena.written)) }
    {
        self.tally.join(searches);
        if failed {
            revert(&mut self.graph, &mut repair);
        }
    }

    /// Replaces the present scene by the other one. The book stays.
    pub(crate) fn replace_scene(&mut self, other: Scene)
        ensures scene { self.new.scene ≡ other }
        ensures book { self.new.book ≡ self.old.book }
        ensures graph { self.new.graph ≡ self.old.graph }
        ensures tally { self.new.tally ≡ self.old.tally }
    {
        self.scene = other;
    }

    /// Exchanges the book's answers with those of the changes. The scene stays.
    pub(crate) fn exchange(&mut self, changes: &mut Changes)
        requires { self.old.book ≡ changes.old.here }
        ensures scene { self.new.scene ≡ self.old.scene }
        ensures book { self.new.book ≡ changes.old.there }
        ensures changes { changes.new ≡ turned changes.old }
        ensures graph { self.new.graph ≡ self.old.graph }
        ensures tally { self.new.tally ≡ self.old.tally }
    {
        self.book.swap(changes);
    }
}
