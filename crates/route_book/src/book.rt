//! The current routes of a scene, and how they change with the scene.
ghost use Rattle.std.specs.Prelude.{◌≡◌, ◌≤◌, All, IfOk, OnOk, length, map, option_copied};
ghost use Rattle.std.specs.List.{AllZip};
ghost use Rattle.line_arena.specs.Count.{counted_by};
ghost use Rattle.route_book.specs.Exchange.{CountsStale, turned};
ghost use Rattle.route_book.specs.Search.{AreRising, IsAnswerWith, IsConnector};
ghost use Rattle.scene_model.specs.Answers.{AreAnswers};
ghost use Rattle.scene_model.specs.Routing.{floor_of};
ghost use Rattle.scene_model.specs.Scene.{connectors};
ghost use Rattle.scene_model.specs.Stale.{AreStale, answer_of};
ghost use Rattle.scene_model.specs.Valid.{IsValid};

use crate::answers::AnswerList;
use crate::comparison::Comparison;
use crate::exchange::Kept;
use crate::search::{Searches, connector_numbers};
use par_route::Gate;
use route_search::Tally;
use scene_store::Scene;
use std::alloc::{AllocError, Global};
use std::marker::Model;
use std::mem;
use std::snapshot::Snapshot;
use std::thread::Threads;
use visibility_graph::Graph;
use walk_model::Answer;

/// The answers of a scene's connectors, in scene order. Its model is the list of answers.
///
/// It is right for a scene if each answer is the route of the first legal walk, or no route where
/// no walk is legal.
#[derive(Drop)]
pub struct Book {
    alloc: Global,
    answers: AnswerList,
}

/// The answers of the present scene and those of another scene. The model is these two lists.
///
/// Only the answers that differ are kept, or the second list, if they are not equally long.
#[derive(Drop)]
pub struct Changes {
    here: Snapshot<AnswerList>,
    there: Snapshot<AnswerList>,
    kept: Kept,
}

/// The numbers of a new scene's connectors, and of those of them that have to be searched again,
/// both in order.
#[derive(Drop)]
struct Sought {
    connectors: Vec<u32>,
    stale: Vec<u32>,
}

impl Model for Book {
    ghost use Rattle.std.specs.Prelude.{List};
    ghost use Rattle.walk_model.specs.declared.route.Answer.{Answer};

    ghost Value = { List Answer };

    ghost view = { λ b. b.answers };
}

impl Model for Changes {
    ghost use Rattle.route_book.specs.Exchange.{Exchange};

    ghost Value = { Exchange };

    ghost view = { λ c. record { here = c.here.value; there = c.there.value } };

    ghost use Rattle.route_book.specs.Keeping.{IsKept};

    ghost invariant = { λ c. IsKept c.here.value c.there.value c.kept };
}

impl Book {
    /// The right answers of the scene, whose graph is `graph`, by at most `workers` searches side
    /// by side.
    ///
    /// The tally rises by the number of connectors. The only error is out of memory, in which case
    /// the tally may have risen as well.
    pub fn build<R: Threads + Sync, G: Gate>(
        rt: &R,
        alloc: Global,
        scene: &Scene,
        graph: &Graph,
        workers: u32,
        gate: &G,
        tally: &mut Tally,
    ) -> Result<Book, AllocError>
        requires some { 1 ≤ workers }
        requires few { workers ≤ 4 }
        requires graph { graph.now.floor ≡ floor_of scene.now }
        ensures right { IfOk result (AreAnswers scene.now) }
        ensures tally { OnOk result (tally.new ≡ counted_by (length (connectors scene.now)) tally.old) }
        ensures never_falls { tally.old ≤ tally.new }
    {
        let numbers = connector_numbers(alloc, scene)?;
        let searches = Searches {
            alloc,
            scene,
            graph,
        };
        let answers = searches.answers(rt, &numbers, workers, gate, tally)?;
        Ok(Book { alloc, answers })
    }

    /// The right answers of the scene, whose graph is `graph`, without threads.
    ///
    /// The tally rises by the number of connectors. The only error is out of memory, in which case
    /// the tally may have risen as well.
    pub fn build_alone(
        alloc: Global,
        scene: &Scene,
        graph: &Graph,
        tally: &mut Tally,
    ) -> Result<Book, AllocError>
        requires graph { graph.now.floor ≡ floor_of scene.now }
        ensures right { IfOk result (AreAnswers scene.now) }
        ensures tally { OnOk result (tally.new ≡ counted_by (length (connectors scene.now)) tally.old) }
        ensures never_falls { tally.old ≤ tally.new }
    {
        let numbers = connector_numbers(alloc, scene)?;
        let searches = Searches {
            alloc,
            scene,
            graph,
        };
        let answers = searches.answers_alone(&numbers, tally)?;
        Ok(Book { alloc, answers })
    }

    /// The numbers of the connectors of the new scene that have to be searched again, in order, if
    /// the book is right for the old scene. The only error is out of memory.
    pub fn stale(&self, old: &Scene, new: &Scene) -> Result<Vec<u32>, AllocError>
        requires right { AreAnswers old.now self.now }
        ensures { IfOk result (λ numbers. AreStale old.now self.now new.now numbers.items) }
    {
        Comparison::between(self.alloc, old, new)?.stale(&self.answers)
    }

    /// The exchange of answers for the step from the old scene, for which the book is right, to the
    /// new one, whose graph is `graph`. Only the stale connectors are searched, by at most
    /// `workers` searches side by side.
    ///
    /// The book stays as it is, and `swap` will take no memory. The tally rises by the number of
    /// stale connectors. The only error is out of memory, in which case the tally may have risen as
    /// well.
    pub fn follow<R: Threads + Sync, G: Gate>(
        &mut self,
        rt: &R,
        old: &Scene,
        new: &Scene,
        graph: &Graph,
        workers: u32,
        gate: &G,
        tally: &mut Tally,
    ) -> Result<Changes, AllocError>
        requires some { 1 ≤ workers }
        requires few { workers ≤ 4 }
        requires right { AreAnswers old.now self.old }
        requires graph { graph.now.floor ≡ floor_of new.now }
        ensures same { self.new ≡ self.old }
        ensures here { IfOk result (λ c. c.here ≡ self.old) }
        ensures there { IfOk result (λ c. AreAnswers new.now c.there) }
        ensures tally { OnOk result (CountsStale old.now self.old new.now tally.old tally.new) }
        ensures never_falls { tally.old ≤ tally.new }
    {
        let renewed = self.renewed(rt, old, new, graph, workers, gate, tally)?;
        self.changes(renewed)
    }

    /// The exchange of answers for the step from the old scene, for which the book is right, to the
    /// new one, whose graph is `graph`. Only the stale connectors are searched, without threads.
    ///
    /// The book stays as it is, and `swap` will take no memory. The tally rises by the number of
    /// stale connectors. The only error is out of memory, in which case the tally may have risen as
    /// well.
    pub fn follow_alone(
        &mut self,
        old: &Scene,
        new: &Scene,
        graph: &Graph,
        tally: &mut Tally,
    ) -> Result<Changes, AllocError>
        requires right { AreAnswers old.now self.old }
        requires graph { graph.now.floor ≡ floor_of new.now }
        ensures same { self.new ≡ self.old }
        ensures here { IfOk result (λ c. c.here ≡ self.old) }
        ensures there { IfOk result (λ c. AreAnswers new.now c.there) }
        ensures tally { OnOk result (CountsStale old.now self.old new.now tally.old tally.new) }
        ensures never_falls { tally.old ≤ tally.new }
    {
        let renewed = self.renewed_alone(old, new, graph, tally)?;
        self.changes(renewed)
    }

    /// The book of the new scene, whose graph is `graph`, if this one is right for the old scene.
    /// Only the stale connectors are searched, by at most `workers` searches side by side.
    fn renewed<R: Threads + Sync, G: Gate>(
        &self,
        rt: &R,
        old: &Scene,
        new: &Scene,
        graph: &Graph,
        workers: u32,
        gate: &G,
        tally: &mut Tally,
    ) -> Result<Book, AllocError>
        requires some { 1 ≤ workers }
        requires few { workers ≤ 4 }
        requires right { AreAnswers old.now self.now }
        requires graph { graph.now.floor ≡ floor_of new.now }
        ensures right { IfOk result (AreAnswers new.now) }
        ensures tally { OnOk result (CountsStale old.now self.now new.now tally.old tally.new) }
        ensures never_falls { tally.old ≤ tally.new }
    {
        let sought = self.sought(old, new)?;
        let searches = Searches {
            alloc: self.alloc,
            scene: new,
            graph,
        };
        let found = searches.answers(rt, &sought.stale, workers, gate, tally)?;
        self.merged(old, new, &sought, &found)
    }

    /// The book of the new scene, whose graph is `graph`, if this one is right for the old scene.
    /// Only the stale connectors are searched, without threads.
    fn renewed_alone(
        &self,
        old: &Scene,
        new: &Scene,
        graph: &Graph,
        tally: &mut Tally,
    ) -> Result<Book, AllocError>
        requires right { AreAnswers old.now self.now }
        requires graph { graph.now.floor ≡ floor_of new.now }
        ensures right { IfOk result (AreAnswers new.now) }
        ensures tally { OnOk result (CountsStale old.now self.now new.now tally.old tally.new) }
        ensures never_falls { tally.old ≤ tally.new }
    {
        let sought = self.sought(old, new)?;
        let searches = Searches {
            alloc: self.alloc,
            scene: new,
            graph,
        };
        let found = searches.answers_alone(&sought.stale, tally)?;
        self.merged(old, new, &sought, &found)
    }

    /// The connectors of the new scene, and those of them that have to be searched again, if the
    /// book is right for the old scene.
    fn sought(&self, old: &Scene, new: &Scene) -> Result<Sought, AllocError>
        requires right { AreAnswers old.now self.now }
        ensures connectors { IfOk result (λ s. s.connectors.items ≡ map (λ e. e.number) (connectors new.now)) }
        ensures stale { IfOk result (λ s. AreStale old.now self.now new.now s.stale.items) }
        ensures order { IfOk result (λ s. AreRising s.stale.items) }
        ensures searched { IfOk result (λ s. All (IsConnector new.now) s.stale.items) }
        ensures valid { IsValid new.now }
    {
        let connectors = connector_numbers(self.alloc, new)?;
        let stale = self.stale(old, new)?;
        Ok(Sought { connectors, stale })
    }

    /// The book of the new scene, where `found` has the right answers of the stale connectors.
    fn merged(
        &self,
        old: &Scene,
        new: &Scene,
        sought: &Sought,
        found: &AnswerList,
    ) -> Result<Book, AllocError>
        requires right { AreAnswers old.now self.now }
        requires connectors { sought.now.connectors.items ≡ map (λ e. e.number) (connectors new.now) }
        requires stale { AreStale old.now self.now new.now sought.now.stale.items }
        requires found { AllZip (IsAnswerWith new.now) sought.now.stale.items found.now }
        ensures { IfOk result (AreAnswers new.now) }
    {
        old.valid();
        new.valid();
        let answers = self.answers.merged(self.alloc, &sought.connectors, found)?;
        Ok(Book {
            alloc: self.alloc,
            answers,
        })
    }

    /// The exchange of answers for the step to the scene of the other book.
    fn changes(&self, other: Book) -> Result<Changes, AllocError>
        ensures here { IfOk result (λ c. c.here ≡ self.now) }
        ensures there { IfOk result (λ c. c.there ≡ other) }
    {
        let Book { answers: there, .. } = other;
        Ok(Changes {
            here: Snapshot::of(&self.answers),
            there: Snapshot::of(&there),
            kept: Kept::of(self.alloc, &self.answers, there)?,
        })
    }

    /// The right answers of the new scene, from these of the old one. Only the stale connectors are searched, by at most
    /// `workers` searches side by side.
    ///
    /// The tally rises by their number. The only error is out of memory, in which case the tally may have risen as well.
    pub fn followed<R: Threads + Sync, G: Gate>(
        &self,
        rt: &R,
        old: &Scene,
        new: &Scene,
        workers: u32,
        gate: &G,
        tally: &mut Tally,
    ) -> Result<Book, AllocError>
        requires some { 1 ≤ workers }
        requires few { workers ≤ 4 }
        requires right { AreAnswers old.now self.now }
        ensures right { IfOk result (AreAnswers new.now) }
        ensures tally { OnOk result (CountsStale old.now self.now new.now tally.old tally.new) }
        ensures never_falls { tally.old ≤ tally.new }
    {
        let graph = Graph::build(self.alloc, &new.floor()?)?;
        self.renewed(rt, old, new, &graph, workers, gate, tally)
    }

    /// The right answers of the new scene, from these of the old one, without threads. Only the stale connectors are
    /// searched.
    ///
    /// The tally rises by their number. The only error is out of memory, in which case the tally may have risen as well.
    pub fn followed_alone(
        &self,
        old: &Scene,
        new: &Scene,
        tally: &mut Tally,
    ) -> Result<Book, AllocError>
        requires right { AreAnswers old.now self.now }
        ensures right { IfOk result (AreAnswers new.now) }
        ensures tally { OnOk result (CountsStale old.now self.now new.now tally.old tally.new) }
        ensures never_falls { tally.old ≤ tally.new }
    {
        let graph = Graph::build(self.alloc, &new.floor()?)?;
        self.renewed_alone(old, new, &graph, tally)
    }

    /// Exchanges the book's answers with those of the other scene in `changes`, which are reversed,
    /// so that a second `swap` restores the former answers. Takes no memory.
    pub fn swap(&mut self, changes: &mut Changes)
        requires { self.old ≡ changes.old.here }
        ensures book { self.new ≡ changes.old.there }
        ensures changes { changes.new ≡ turned changes.old }
    {
        changes.kept.exchange(&mut self.answers, &changes.there);
        mem::swap(&mut changes.here, &mut changes.there);
    }

    /// The answer of the connector with the number; `None` exactly if the book has no such
    /// connector. Takes no memory.
    pub fn answer(&self, edge: u32) -> Option<&Answer>
        ensures { option_copied result ≡ answer_of self.now edge }
    {
        self.answers.get(edge)
    }

    /// The answers, in scene order. Takes no memory.
    pub fn answers(&self) -> &[Answer]
        ensures { result.now ≡ self.now }
    {
        self.answers.as_slice()
    }

    /// A copy of the book. The only error is out of memory.
    pub fn copy(&self) -> Result<Book, AllocError>
        ensures { IfOk result (λ b. b ≡ self.now) }
    {
        Ok(Book {
            alloc: self.alloc,
            answers: self.answers.copy(self.alloc)?,
        })
    }
}
