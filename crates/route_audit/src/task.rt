//! The audit of the proof of one connector.
ghost use Rattle.std.specs.Prelude.{IfOk, length};
ghost use Rattle.move_model.specs.Problems.{IsProblem};
ghost use Rattle.plane_geom.specs.declared.floor.Floor.{Floor};
ghost use Rattle.proof_model.specs.Rules.{AreRows, IsShown};
ghost use Rattle.route_audit.specs.Audits.{IsBroken};
ghost use Rattle.route_audit.specs.Index.{AreLabels};
ghost use Rattle.search_problem.specs.Problems.{IsReady};

use crate::ends::{are_entries_found, may_all_end};
use crate::labels::{Labels, RowIndex};
use crate::laws::rules_by_lists;
use crate::line::is_shown;
use crate::moves::are_moves_found;
use crate::rows::put_rows;
use proof_model::{Claim, LabelRow};
use search_problem::Problem;
use std::alloc::AllocError;

/// The least of the rules from 4 on that the labels break, if they break one.
fn broken_by_labels(problem: &Problem<'_>, claim: &Claim, labels: &Labels<'_>) -> Option<u32>
    requires ready { IsReady problem.now }
    requires labels { AreLabels problem.now.arena.now (length problem.now.task.now.via) labels.now }
    requires rows { (floor : Floor) →
        IsProblem floor problem.now.arena.now problem.now.solids.now problem.now.task.now →
        AreRows floor problem.now.task.now claim.now labels.now.rows.now }
    ensures { (floor : Floor) →
        IsProblem floor problem.now.arena.now problem.now.solids.now problem.now.task.now →
        IsShown floor problem.now.task.now claim.now →
        IsBroken floor problem.now.task.now claim.now labels.now.rows.now result }
{
    rules_by_lists();
    if !are_entries_found(problem, claim, labels, &problem.entries) {
        return Some(4);
    }
    if !are_moves_found(problem, claim, labels) {
        return Some(5);
    }
    if !may_all_end(problem, claim, labels, &problem.endings) {
        return Some(6);
    }
    None
}

/// The least of the rules from 2 on that the proof of a claim breaks, if it breaks one.
pub(crate) fn broken_rule(
    index: &mut RowIndex,
    problem: &Problem<'_>,
    claim: &Claim,
    rows: &[LabelRow],
) -> Result<Option<u32>, AllocError>
    requires { IsReady problem.now }
    ensures { IfOk result (λ rule. (floor : Floor) →
        IsProblem floor problem.now.arena.now problem.now.solids.now problem.now.task.now →
        IsBroken floor problem.now.task.now claim.now rows.now rule) }
{
    let last = problem.task.via.as_slice().len();
    if !put_rows(index, problem.arena, last, claim, rows)? {
        return Ok(Some(2));
    }
    if !is_shown(problem.solids, problem.task, claim) {
        return Ok(Some(3));
    }
    let labels = Labels { rows, index };
    Ok(broken_by_labels(problem, claim, &labels))
}
