//! The connectors that an edit makes stale.
ghost use Rattle.std.specs.Prelude.{◌≡◌, ◌↔◌, Any, IfOk, IsTrue, Some};
ghost use Rattle.std.specs.Bool.{OnFalse, OnTrue};
ghost use Rattle.route_book.specs.Solids.{AreCompared};
ghost use Rattle.scene_model.specs.Answers.{AreAnswers, IsAnswerOf};
ghost use Rattle.scene_model.specs.Scene.{edge_with};
ghost use Rattle.scene_model.specs.Stale.{AreStale, IsCurrent, IsOpen, IsWithinReach, IsStale, LineMeets, looks};
ghost use Rattle.scene_model.specs.Valid.{IsValid};
ghost use Rattle.walk_model.specs.Line.{IsStraightLine};

use crate::answers::AnswerList;
use crate::line::line_meets;
use crate::reach::Reach;
use crate::shapes::{ask_same, has_same_shape, removed};
use plane_geom::{Point, Solid};
use scene_store::{Edge, Scene};
use std::alloc::{AllocError, Global};
use walk_model::Answer;

/// An old scene and a new one, with the solids that were removed and those that were added.
#[derive(Drop)]
pub(crate) struct Comparison<'a> {
    alloc: Global,
    old: &'a Scene,
    new: &'a Scene,
    removed: Vec<Solid>,
    added: Vec<Solid>,
}

impl<'a> Comparison<'a> {
    pub(crate) fn between(
        alloc: Global,
        old: &'a Scene,
        new: &'a Scene,
    ) -> Result<Comparison<'a>, AllocError>
        ensures old { IfOk result (λ c. c.old.now ≡ old.now) }
        ensures new { IfOk result (λ c. c.new.now ≡ new.now) }
        ensures solids { IfOk result (λ c. AreCompared old.now new.now c.removed.items c.added.items) }
    {
        Ok(Comparison {
            alloc,
            old,
            new,
            removed: removed(alloc, old, new)?,
            added: removed(alloc, new, old)?,
        })
    }

    /// The numbers of the stale connectors, in order.
    pub(crate) fn stale(&self, answers: &AnswerList) -> Result<Vec<u32>, AllocError>
        requires solids { AreCompared self.now.old.now self.now.new.now self.now.removed.items self.now.added.items }
        requires right { AreAnswers self.now.old.now answers.now }
        ensures { IfOk result (λ numbers. AreStale self.now.old.now answers.now self.now.new.now numbers.items) }
    {
        let mut numbers = Vec::new(self.alloc);
        for edge in self.new.edges() {
            if edge.from != edge.to && self.is_stale(answers, edge) {
                numbers.push(edge.number)?;
            }
        }
        Ok(numbers)
    }

    /// Whether the connector of the new scene is stale.
    fn is_stale(&self, answers: &AnswerList, edge: &Edge) -> bool
        requires solids { AreCompared self.now.old.now self.now.new.now self.now.removed.items self.now.added.items }
        requires right { AreAnswers self.now.old.now answers.now }
        ensures stale { OnTrue result (IsStale self.now.old.now answers.now self.now.new.now edge.now) }
        ensures current { OnFalse result (IsCurrent self.now.old.now answers.now self.now.new.now edge.now) }
    {
        let penalty = self.old.settings().penalty;
        let Some(answer) = answers.get(edge.number) else {
            return true;
        };
        let Some(was) = self.old.edge(edge.number) else {
            return true;
        };
        if !self.looks_same(was, edge) {
            return true;
        }
        if penalty != self.new.settings().penalty {
            return true;
        }
        self.is_open(was, answer)
    }

    /// Whether a search uses the same data of the old edge as of the new one.
    fn looks_same(&self, was: &Edge, edge: &Edge) -> bool
        ensures { IsTrue result ↔ (looks self.now.old.now was.now ≡ looks self.now.new.now edge.now) }
    {
        if self.old.settings().buffer != self.new.settings().buffer {
            return false;
        }
        if !ask_same(was, edge) {
            return false;
        }
        has_same_shape(self.old, self.new, was.from) && has_same_shape(self.old, self.new, was.to)
    }

    /// Whether the removed and added solids may change the right answer of the edge of the old
    /// scene.
    fn is_open(&self, was: &Edge, answer: &Answer) -> bool
        requires solids { AreCompared self.now.old.now self.now.new.now self.now.removed.items self.now.added.items }
        requires valid { IsValid self.now.old.now }
        requires known { edge_with self.now.old.now was.now.number ≡ Some was.now }
        requires right { IsAnswerOf self.now.old.now was.now answer.now }
        ensures { IsTrue result ↔ IsOpen self.now.old.now self.now.new.now was.now answer.now.route }
    {
        match &answer.route {
            None => !self.removed.as_slice().is_empty(),
            Some(route) => {
                self.is_barred(route.points.as_slice()) || self.is_reached(was, route.cost)
            }
        }
    }

    /// Whether a step of the line meets an added solid.
    fn is_barred(&self, points: &[Point]) -> bool
        requires { IsStraightLine points.now }
        ensures { IsTrue result ↔ Any (λ s. LineMeets s.rect points.now) self.now.added.items }
    {
        for solid in &self.added {
            if line_meets(&solid.rect, points) {
                return true;
            }
        }
        false
    }

    /// Whether a way of the edge of the old scene, of at most this cost, reaches a removed solid.
    fn is_reached(&self, was: &Edge, cost: u64) -> bool
        requires solids { AreCompared self.now.old.now self.now.new.now self.now.removed.items self.now.added.items }
        requires valid { IsValid self.now.old.now }
        requires known { edge_with self.now.old.now was.now.number ≡ Some was.now }
        ensures { IsTrue result ↔ Any (λ s. IsWithinReach self.now.old.now was.now s.rect cost) self.now.removed.items }
    {
        let Some(source) = self.old.node(was.from) else {
            return false;
        };
        let Some(target) = self.old.node(was.to) else {
            return false;
        };
        let reach = Reach {
            source,
            target,
            edge: was,
            cost,
        };
        for solid in &self.removed {
            if reach.is_near_between(&solid.rect) {
                return true;
            }
        }
        false
    }
}
