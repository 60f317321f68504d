//! Labels are spread forwards, from the entries on, the lowest label first.
ghost use Rattle.std.specs.Prelude.{
  ◌≡◌,
  ◌≤◌,
  ◌<◌,
  ◌↔◌,
  ℕ,
  IsTrue,
  Option,
  None,
  Some,
  All,
  OnOk,
  length,
};
ghost use Rattle.line_arena.specs.Arena.{StandsAt};
ghost use Rattle.move_model.specs.declared.place.Place.{Place};
ghost use Rattle.plane_geom.specs.declared.point.Dir.{Dir};
ghost use Rattle.search_problem.specs.Problems.{IsReady};
ghost use Rattle.walk_model.specs.Cost.{turn};
ghost use Rattle.proof_search.specs.Scopes.{ComesBy, most_of};
ghost use Rattle.proof_search.specs.Search.{
  AreNone,
  Falls,
  HasRooms,
  IsComing,
  IsEntryOffered,
  IsPropagatedIn,
  IsPropagated,
  IsOffered,
  IsPlace,
  IsSearching,
  IsSpread,
  OnFloors,
  Spreads,
  cost_in,
  label_at,
  place_at,
  weight,
};

use crate::label::Label;
use crate::labels::Labels;
use crate::scope::Scope;
use move_model::{Ahead, Place};
use plane_geom::{Dir, Point};
use proof_model::next_place;
use search_problem::{Candidate, DIRS, Problem};
use std::alloc::AllocError;

/// The bends between two headings.
fn bends(from: Dir, to: Dir) -> u64
    ensures bends { result ≡ turn from to }
    ensures few { result ≤ 2 }
{
    if from == to {
        0
    } else if from == to.opposite() {
        2
    } else {
        1
    }
}

/// The cost in the label, whether open or closed.
pub(crate) fn cost_in(label: Label) -> Option<u64>
    ensures { result ≡ cost_in label }
{
    match label.ahead() {
        None => None,
        Some(known) => Some(known.cost),
    }
}

/// Whether the label is at most the cost.
fn is_at_most(label: Label, cost: u64) -> bool
    ensures { IsTrue result ↔ ((known : ℕ) × (cost_in label ≡ Some known) × (known ≤ cost)) }
{
    match cost_in(label) {
        None => false,
        Some(known) => known <= cost,
    }
}

/// A label with this cost.
fn with_cost(cost: u64) -> Ahead
    ensures { result.cost ≡ cost }
{
    Ahead {
        cost,
        runs: 0,
        lean: 0,
    }
}

impl Labels {
    /// Gives the place the label of a walk that comes at this cost, unless it has a lower one.
    fn offer(
        &mut self,
        scope: Scope,
        problem: &Problem<'_>,
        place: &Place,
        cost: u64,
    ) -> Result<(), AllocError>
        requires ready { IsReady problem.now }
        requires searching { (but : Option Place) ×
            IsSearching problem.now scope self.old None but }
        requires coming { IsComing problem.now scope place.now cost }
        ensures searching { OnOk result ((but : Option Place) →
            IsSearching problem.now scope self.old None but →
            IsSearching problem.now scope self.new None but) }
        ensures spreads { OnOk result (Spreads scope self.old self.new) }
        ensures lighter { OnOk result (weight scope self.new ≤ weight scope self.old) }
        ensures offered { OnOk result (IsOffered scope self.new place.now cost) }
    {
        let Some(cost) = scope.label(cost) else {
            return Ok(());
        };
        let number = problem.arena.index(place.crossing);
        if is_at_most(self.table.label(place, number), cost) {
            return Ok(());
        }
        self.queue.push(Candidate {
            bound: cost,
            item: *place,
        })?;
        self.table.put(place, number, Label::Open(with_cost(cost)));
        Ok(())
    }

    /// Offers the move in the direction, if there is one, to the place where it ends.
    ///
    /// The walk reached this place, which stands at the point, at this cost.
    fn offer_move(
        &mut self,
        scope: Scope,
        problem: &Problem<'_>,
        place: &Place,
        at: Point,
        cost: u64,
        dir: Dir,
    ) -> Result<(), AllocError>
        requires ready { IsReady problem.now }
        requires searching { (but : Option Place) ×
            IsSearching problem.now scope self.old None but }
        requires here { StandsAt problem.now.arena.now place.now.crossing at }
        requires stage { place.now.stage ≤ length problem.now.task.now.via }
        requires small { cost < most_of scope }
        requires comes { OnFloors problem.now
            (λ floor. ComesBy scope floor problem.now.task.now (place_at place.now at) cost) }
        ensures searching { OnOk result ((but : Option Place) →
            IsSearching problem.now scope self.old None but →
            IsSearching problem.now scope self.new None but) }
        ensures spreads { OnOk result (Spreads scope self.old self.new) }
        ensures lighter { OnOk result (weight scope self.new ≤ weight scope self.old) }
        ensures propagated { OnOk result
            (IsPropagatedIn problem.now scope self.new place.now at cost dir) }
    {
        let Some(next) = next_place(problem, place.crossing, at, place.stage, dir) else {
            return Ok(());
        };
        let turned = problem.task.penalty * bends(place.heading, dir);
        let further = cost + (next.steps + turned);
        self.offer(scope, problem, &next.place, further)?;
        Ok(())
    }

    /// Offers the moves in all directions to their ends.
    fn propagate(
        &mut self,
        scope: Scope,
        problem: &Problem<'_>,
        place: &Place,
        cost: u64,
    ) -> Result<(), AllocError>
        requires ready { IsReady problem.now }
        requires searching { (but : Option Place) ×
            IsSearching problem.now scope self.old None but }
        requires coming { IsComing problem.now scope place.now cost }
        requires small { cost < most_of scope }
        ensures searching { OnOk result ((but : Option Place) →
            IsSearching problem.now scope self.old None but →
            IsSearching problem.now scope self.new None but) }
        ensures spreads { OnOk result (Spreads scope self.old self.new) }
        ensures lighter { OnOk result (weight scope self.new ≤ weight scope self.old) }
        ensures propagated { OnOk result (IsPropagated problem.now scope self.new place.now cost) }
    {
        let at = problem.arena.point(place.crossing);
        for dir in DIRS {
            self.offer_move(scope, problem, place, at, cost, dir)?;
        }
        Ok(())
    }

    /// Closes the label of the place, if it is open, and propagates it.
    fn take(&mut self, scope: Scope, problem: &Problem<'_>, place: &Place) -> Result<(), AllocError>
        requires ready { IsReady problem.now }
        requires searching { IsSearching problem.now scope self.old (Some place.now) None }
        requires place { IsPlace problem.now place.now }
        ensures searching { OnOk result (IsSearching problem.now scope self.new None None) }
        ensures falls { OnOk result (Falls scope self.old self.new) }
        ensures lighter { OnOk result (weight scope self.new ≤ weight scope self.old) }
    {
        let number = problem.arena.index(place.crossing);
        let Label::Open(known) = self.table.label(place, number) else {
            return Ok(());
        };
        self.table.put(place, number, Label::Closed(known));
        self.propagate(scope, problem, place, known.cost)?;
        Ok(())
    }

    /// Offers all entries to their places.
    fn offer_entries(&mut self, scope: Scope, problem: &Problem<'_>) -> Result<(), AllocError>
        requires ready { IsReady problem.now }
        requires searching { IsSearching problem.now scope self.old None None }
        ensures searching { OnOk result (IsSearching problem.now scope self.new None None) }
        ensures offered { OnOk result
            (All (IsEntryOffered scope self.new) problem.now.entries.items) }
    {
        for entry in &problem.entries {
            self.offer(scope, problem, &entry.place, entry.lead)?;
        }
        Ok(())
    }

    /// Labels all places to which walks of the scope come, each with the least of their labels.
    pub fn spread(&mut self, scope: Scope, problem: &Problem<'_>) -> Result<(), AllocError>
        requires ready { IsReady problem.now }
        requires small { most_of scope ≤ 1000000000000000000 }
        requires none { AreNone self.old }
        requires rooms { HasRooms problem.now self.old }
        ensures spread { OnOk result (IsSpread problem.now scope self.new) }
    {
        self.offer_entries(scope, problem)?;
        while let Some(candidate) = self.queue.pop() {
            self.take(scope, problem, &candidate.item)?;
        }
        Ok(())
    }
}
