//! Whether rows rise, stand at crossings and have right labels.
ghost use Rattle.std.specs.Prelude.{◌≡◌, ◌↔◌, ◌<◌, ◌≤◌, ◌+◌, ℕ, Ok, Some, true, AllPairs, IfOk};
ghost use Rattle.std.specs.Prelude.{IsSome, IsTrue, length, slice_index_or, take};
ghost use Rattle.line_arena.specs.Stands.{StandsFor};
ghost use Rattle.plane_geom.specs.declared.floor.Floor.{Floor};
ghost use Rattle.plane_geom.specs.declared.point.Dir.{Dir};
ghost use Rattle.walk_model.specs.declared.task.Task.{Task};
ghost use Rattle.proof_model.specs.Labels.{is_before, label_in};
ghost use Rattle.proof_model.specs.Rules.{AreRows};
ghost use Rattle.route_audit.specs.Index.{AreIndexed};
ghost use Rattle.route_audit.specs.Rows.{HasRightLabel, IsFitRow, IsRowIn};
ghost use Rattle.proof_model.specs.declared.proof.LabelRow.{LabelRow};

use crate::claim::{MOST_LABEL, is_label_for};
use crate::crossing::crossing_near;
use crate::labels::RowIndex;
use line_arena::LineArena;
use plane_geom::Dir;
use proof_model::{Claim, LabelRow};
use search_problem::DIRS;
use std::alloc::AllocError;

/// Whether the label of the heading is one for the claim, if there is one.
fn has_right_label(claim: &Claim, row: &LabelRow, heading: Dir) -> bool
    ensures { IsTrue result ↔ HasRightLabel claim.now row.now heading }
{
    match row.label(heading) {
        None => true,
        Some(label) => label < MOST_LABEL && is_label_for(claim, label),
    }
}

/// Whether each label of the row is one for the claim.
fn has_right_labels(claim: &Claim, row: &LabelRow) -> bool
    ensures { IsTrue result ↔ ((h : Dir) → HasRightLabel claim.now row.now h) }
{
    for heading in DIRS {
        if !has_right_label(claim, row, heading) {
            return false;
        }
    }
    true
}

/// Whether the row has a label.
fn has_label(row: &LabelRow) -> bool
    ensures { IsTrue result ↔ ((h : Dir) × IsSome (label_in row.now h)) }
{
    row.east.is_some() || row.south.is_some() || row.west.is_some() || row.north.is_some()
}

/// Whether the one row stands before the other.
fn is_before(a: &LabelRow, b: &LabelRow) -> bool
    ensures { result ≡ is_before a.now b.now }
{
    a.stage < b.stage
        || (a.stage == b.stage && (a.at.y < b.at.y || (a.at.y == b.at.y && a.at.x < b.at.x)))
}

/// Whether the row may stand under the claim, for a task with this number of checkpoints, if it is
/// of a crossing.
fn is_fit(last: usize, claim: &Claim, row: &LabelRow) -> bool
    ensures { IsTrue result ↔ IsFitRow last claim.now row.now }
{
    if row.stage as usize > last {
        return false;
    }
    if !has_label(row) {
        return false;
    }
    has_right_labels(claim, row)
}

/// Whether the row comes after those before its place, which rise.
fn comes_next(rows: &[LabelRow], place: usize) -> bool
    requires place { place < length rows.now }
    requires rise { AllPairs (λ a b. IsTrue (is_before a b)) (take place rows.now) }
    ensures { IsTrue result ↔ AllPairs (λ a b. IsTrue (is_before a b)) (take (place + 1) rows.now) }
{
    if place == 0 {
        return true;
    }
    is_before(&rows[place - 1], &rows[place])
}

/// Puts the row at the place into the index, if it is of a crossing and may stand under the claim.
fn put_row(
    index: &mut RowIndex,
    arena: &LineArena,
    last: usize,
    claim: &Claim,
    rows: &[LabelRow],
    place: usize,
) -> Result<bool, AllocError>
    requires place { place < length rows.now }
    requires rise { AllPairs (λ a b. IsTrue (is_before a b)) (take (place + 1) rows.now) }
    requires indexed { AreIndexed arena.now last rows.now place index.old }
    ensures good { IfOk result (λ good. (d : LabelRow) →
        IsTrue good ↔ IsRowIn arena.now last claim.now (slice_index_or rows.now place d)) }
    ensures indexed { result ≡ Ok true → AreIndexed arena.now last rows.now (place + 1) index.new }
{
    arena.laws();
    let row = rows[place];
    if !is_fit(last, claim, &row) {
        return Ok(false);
    }
    let Some(crossing) = crossing_near(arena, index.last(), row.at) else {
        return Ok(false);
    };
    let number = arena.index(crossing);
    index.push(place, row.stage, crossing, number)?;
    Ok(true)
}

/// Whether the rows rise, and each may stand under the claim. If so, the index is that of the rows.
pub(crate) fn put_rows(
    index: &mut RowIndex,
    arena: &LineArena,
    last: usize,
    claim: &Claim,
    rows: &[LabelRow],
) -> Result<bool, AllocError>
    requires few { last ≤ 4 }
    ensures good { IfOk result (λ good. (floor : Floor) (task : Task) →
        StandsFor floor arena.now → length task.via ≡ last → IsTrue good ↔ AreRows floor task claim.now rows.now) }
    ensures indexed { result ≡ Ok true →
        AreIndexed arena.now last rows.now (length rows.now) index.new }
{
    arena.laws();
    index.fit(arena.places(), last + 1)?;
    for place in 0..rows.len() {
        if !comes_next(rows, place) {
            return Ok(false);
        }
        if !put_row(index, arena, last, claim, rows, place)? {
            return Ok(false);
        }
    }
    Ok(true)
}
