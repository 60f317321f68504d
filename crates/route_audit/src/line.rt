//! Whether a line shows a claimed cost.
ghost use Rattle.std.specs.Prelude.{◌≡◌, ◌↔◌, ◌≤◌, All, IsTrue};
ghost use Rattle.plane_geom.specs.Point.{PointIsOnSheet};
ghost use Rattle.plane_geom.specs.Rect.{RectIsOnSheet};
ghost use Rattle.plane_geom.specs.declared.floor.Floor.{Floor};
ghost use Rattle.walk_model.specs.Legal.{IsTask};
ghost use Rattle.walk_model.specs.Line.{IsPolyline};
ghost use Rattle.proof_model.specs.Rules.{IsLineOf, IsShown};

use crate::claim::MOST_LABEL;
use plane_geom::{Point, Solid};
use proof_model::Claim;
use route_check::{check, one_verdict};
use walk_model::Task;

/// The greatest number of points that a line may have.
const MOST_POINTS: usize = 40_000_000;

/// Whether all points lie on the sheet.
fn are_on_sheet(points: &[Point]) -> bool
    ensures { IsTrue result ↔ All PointIsOnSheet points.now }
{
    for point in points {
        if !point.is_on_sheet() {
            return false;
        }
    }
    true
}

/// Whether the points may be passed as the corners of a line.
fn is_polyline(points: &[Point]) -> bool
    ensures { IsTrue result ↔ IsPolyline points.now }
{
    points.len() <= MOST_POINTS && are_on_sheet(points)
}

/// Whether the line is a legal one of this cost.
fn is_line_of(solids: &[Solid], task: &Task, points: &[Point], cost: u64) -> bool
    requires solids { All (λ s. RectIsOnSheet s.rect) solids.now }
    requires task { IsTask task.now }
    ensures { (floor : Floor) → floor.solids ≡ solids.now →
        IsTrue result ↔ IsLineOf floor task.now points.now cost }
{
    one_verdict();
    if cost >= MOST_LABEL || !is_polyline(points) {
        return false;
    }
    match check(solids, task, points) {
        Ok(least) => least == cost,
        Err(_) => false,
    }
}

/// Whether a line shows the cost, if one is claimed.
pub(crate) fn is_shown(solids: &[Solid], task: &Task, claim: &Claim) -> bool
    requires solids { All (λ s. RectIsOnSheet s.rect) solids.now }
    requires task { IsTask task.now }
    ensures { (floor : Floor) → floor.solids ≡ solids.now →
        IsTrue result ↔ IsShown floor task.now claim.now }
{
    match claim {
        Claim::Cost { cost, points } => is_line_of(solids, task, points.as_slice(), *cost),
        Claim::Cut => true,
    }
}
