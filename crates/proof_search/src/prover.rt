//! The proof of a connector.
ghost use Rattle.std.specs.Prelude.{◌≡◌, ◌≤◌, IfOk};
ghost use Rattle.move_model.specs.Problems.{IsProblem};
ghost use Rattle.plane_geom.specs.declared.floor.Floor.{Floor};
ghost use Rattle.walk_model.specs.Answers.{IsAnswer};
ghost use Rattle.proof_search.specs.Provers.{AreLeastOn, HasSpots, IsLeastFor, claim_for, scope_for};
ghost use Rattle.proof_search.specs.Scopes.{claim_of, most_of};
ghost use Rattle.proof_search.specs.Spots.{AreSpots};

use crate::labels::Labels;
use crate::scope::Scope;
use crate::spots::{Spot, crossings_in_order};
use line_arena::LineArena;
use plane_geom::Solid;
use proof_model::{Claim, Proof, Rows};
use route_search::{Finder, Tally};
use search_problem::{Problem, SortedSolids};
use std::alloc::{AllocError, Global};
use walk_model::{Route, Task};

/// What is kept from one connector to the next.
#[derive(Drop)]
pub struct Prover<'a> {
    pub alloc: Global,
    pub finder: Finder<'a>,
    pub spots: Vec<Spot>,
}

/// Which walks are labelled where this is the answer.
fn scope_for(route: &Option<Route>) -> Scope
    ensures { result ≡ scope_for route.now }
{
    match route {
        Some(route) => Scope::Below(route.cost),
        None => Scope::Every,
    }
}

/// What the answer claims.
fn claim_for(route: Option<Route>) -> Claim
    ensures { result ≡ claim_for route }
{
    match route {
        Some(route) => Claim::Cost {
            cost: route.cost,
            points: route.points,
        },
        None => Claim::Cut,
    }
}

/// The proof with this answer and these rows.
fn proof_of(
    edge: u32,
    route: Option<Route>,
    rows: Result<Rows, AllocError>,
) -> Result<Proof, AllocError>
    ensures edge { IfOk result (λ p. p.edge ≡ edge) }
    ensures claim { IfOk result (λ p. p.claim ≡ claim_for route) }
    ensures rows { IfOk result (λ p. rows ≡ Ok p.rows) }
{
    let rows = rows?;
    Ok(Proof {
        edge,
        claim: claim_for(route),
        rows,
    })
}

/// The least labels of the task, in rows.
fn spread_rows(
    alloc: Global,
    arena: &LineArena,
    solids: &[Solid],
    task: &Task,
    scope: Scope,
    spots: &[Spot],
) -> Result<Rows, AllocError>
    requires problem { (floor : Floor) × IsProblem floor arena.now solids.now task.now }
    requires small { most_of scope ≤ 1000000000000000000 }
    requires spots { AreSpots arena.now spots.now }
    ensures { IfOk result (AreLeastOn arena.now solids.now task.now (claim_of scope)) }
{
    let stages = task.via.as_slice().len() + 1;
    let mut labels = Labels::new(alloc, arena.places(), stages)?;
    let sorted = SortedSolids::new(alloc, solids)?;
    let problem = Problem::new(alloc, arena, solids, &sorted, task)?;
    labels.spread(scope, &problem)?;
    labels.rows(alloc, &problem, spots)
}

impl<'a> Prover<'a> {
    /// A prover for tasks over the arena of a floor with these solids.
    pub fn new(
        alloc: Global,
        arena: &'a LineArena,
        solids: &'a [Solid],
    ) -> Result<Prover<'a>, AllocError>
        ensures arena { IfOk result (λ p. p.finder.arena.now ≡ arena.now) }
        ensures solids { IfOk result (λ p. p.finder.solids.now ≡ solids.now) }
        ensures spots { IfOk result HasSpots }
    {
        let spots = crossings_in_order(alloc, arena)?;
        Ok(Prover {
            alloc,
            finder: Finder::new(alloc, arena, solids),
            spots,
        })
    }

    /// The proof of the connector with the number, which has this task.
    pub fn proof(&mut self, edge: u32, task: &Task) -> Result<Proof, AllocError>
        requires problem { (floor : Floor) ×
            IsProblem floor self.old.finder.arena.now self.old.finder.solids.now task.now }
        requires spots { HasSpots self.old }
        ensures edge { IfOk result (λ p. p.edge ≡ edge) }
        ensures least { IfOk result
            (IsLeastFor self.old.finder.arena.now self.old.finder.solids.now task.now) }
        ensures arena { self.new.finder.arena.now ≡ self.old.finder.arena.now }
        ensures solids { self.new.finder.solids.now ≡ self.old.finder.solids.now }
        ensures spots { HasSpots self.new }
    {
        let route = self.finder.find(task, &mut Tally::new())?;
        let scope = scope_for(&route);
        let rows = spread_rows(
            self.alloc,
            self.finder.arena,
            self.finder.solids,
            task,
            scope,
            &self.spots,
        );
        proof_of(edge, route, rows)
    }
}
