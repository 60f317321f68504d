//! Whether labels agree with the moves from labelled places.
ghost use Rattle.std.specs.Prelude.{◌≡◌, ◌<◌, ◌≤◌, ◌↔◌, ℕ, Some, All, IsTrue, length};
ghost use Rattle.line_arena.specs.Arena.{StandsAt};
ghost use Rattle.move_model.specs.Problems.{IsProblem};
ghost use Rattle.plane_geom.specs.declared.floor.Floor.{Floor};
ghost use Rattle.plane_geom.specs.declared.point.Dir.{Dir};
ghost use Rattle.proof_model.specs.Labels.{label_in};
ghost use Rattle.proof_model.specs.Rules.{AreRows};
ghost use Rattle.route_audit.specs.Index.{AreLabels};
ghost use Rattle.route_audit.specs.Moves.{AreMovesInFound, ArrivesWell};
ghost use Rattle.search_problem.specs.Problems.{IsReady};

use crate::claim::{bends, suffices};
use crate::labels::Labels;
use line_arena::CrossId;
use plane_geom::Dir;
use proof_model::{Claim, LabelRow, next_place};
use search_problem::{DIRS, Problem};

/// Whether the value at the move's end, which has the label `there`, agrees with the row's label of
/// the heading, if it has one.
fn arrives_well(
    claim: &Claim,
    row: &LabelRow,
    penalty: u64,
    steps: u64,
    dir: Dir,
    there: Option<u64>,
    heading: Dir,
) -> bool
    requires labels { (label : ℕ) → label_in row.now heading ≡ Some label →
        label < 1000000000000000000 }
    requires penalty { penalty ≤ 1000000000 }
    requires steps { steps ≤ 8000000000 }
    ensures { IsTrue result ↔ ArrivesWell claim.now row.now penalty steps dir there heading }
{
    match row.label(heading) {
        None => true,
        Some(label) => {
            let cost = label + (steps + penalty * bends(heading, dir));
            suffices(claim, there, cost)
        }
    }
}

/// Whether it agrees with all labels of the row.
fn all_arrive_well(
    claim: &Claim,
    row: &LabelRow,
    penalty: u64,
    steps: u64,
    dir: Dir,
    there: Option<u64>,
) -> bool
    requires labels { (h : Dir) (label : ℕ) → label_in row.now h ≡ Some label →
        label < 1000000000000000000 }
    requires penalty { penalty ≤ 1000000000 }
    requires steps { steps ≤ 8000000000 }
    ensures { IsTrue result ↔ ((h : Dir) → ArrivesWell claim.now row.now penalty steps dir there h) }
{
    for heading in DIRS {
        if !arrives_well(claim, row, penalty, steps, dir, there, heading) {
            return false;
        }
    }
    true
}

/// Whether the move from the row's crossing, which is this one, in the direction agrees with the
/// labels.
fn are_moves_found_in(
    problem: &Problem<'_>,
    claim: &Claim,
    labels: &Labels<'_>,
    row: &LabelRow,
    crossing: CrossId,
    dir: Dir,
) -> bool
    requires ready { IsReady problem.now }
    requires labels { AreLabels problem.now.arena.now (length problem.now.task.now.via) labels.now }
    requires small { (h : Dir) (label : ℕ) → label_in row.now h ≡ Some label →
        label < 1000000000000000000 }
    requires here { StandsAt problem.now.arena.now crossing row.now.at }
    requires stage { row.now.stage ≤ length problem.now.task.now.via }
    ensures { (floor : Floor) →
        IsProblem floor problem.now.arena.now problem.now.solids.now problem.now.task.now →
        IsTrue result ↔
        AreMovesInFound floor problem.now.task.now claim.now labels.now.rows.now row.now dir }
{
    let Some(next) = next_place(problem, crossing, row.at, row.stage, dir) else {
        return true;
    };
    let there = labels.label(problem.arena, &next.place, next.at);
    all_arrive_well(claim, row, problem.task.penalty, next.steps, dir, there)
}

/// Whether all moves from the row's crossing, which is this one, agree with the labels.
fn are_moves_of_row_found(
    problem: &Problem<'_>,
    claim: &Claim,
    labels: &Labels<'_>,
    row: &LabelRow,
    crossing: CrossId,
) -> bool
    requires ready { IsReady problem.now }
    requires labels { AreLabels problem.now.arena.now (length problem.now.task.now.via) labels.now }
    requires small { (h : Dir) (label : ℕ) → label_in row.now h ≡ Some label →
        label < 1000000000000000000 }
    requires here { StandsAt problem.now.arena.now crossing row.now.at }
    requires stage { row.now.stage ≤ length problem.now.task.now.via }
    ensures { (floor : Floor) →
        IsProblem floor problem.now.arena.now problem.now.solids.now problem.now.task.now →
        IsTrue result ↔
        ((d : Dir) → AreMovesInFound floor problem.now.task.now claim.now labels.now.rows.now row.now d) }
{
    for dir in DIRS {
        if !are_moves_found_in(problem, claim, labels, row, crossing, dir) {
            return false;
        }
    }
    true
}

/// Whether all moves from the rows agree with the labels.
pub(crate) fn are_moves_found(problem: &Problem<'_>, claim: &Claim, labels: &Labels<'_>) -> bool
    requires ready { IsReady problem.now }
    requires labels { AreLabels problem.now.arena.now (length problem.now.task.now.via) labels.now }
    requires rows { (floor : Floor) →
        IsProblem floor problem.now.arena.now problem.now.solids.now problem.now.task.now →
        AreRows floor problem.now.task.now claim.now labels.now.rows.now }
    ensures { (floor : Floor) →
        IsProblem floor problem.now.arena.now problem.now.solids.now problem.now.task.now →
        IsTrue result ↔
        All (λ r. (d : Dir) → AreMovesInFound floor problem.now.task.now claim.now labels.now.rows.now r d)
        labels.now.rows.now }
{
    for (place, row) in labels.rows.iter().enumerate() {
        let crossing = labels.index.crossings[place];
        if !are_moves_of_row_found(problem, claim, labels, row, crossing) {
            return false;
        }
    }
    true
}
