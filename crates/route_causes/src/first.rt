//! The first box that closes an end, and the first that covers a checkpoint.
ghost use Rattle.std.specs.Prelude.{◌≡◌, ◌↔◌, ◌≤◌, All, IfSome, IsNone, IsTrue, length};
ghost use Rattle.move_model.specs.Places.{HasFreeStub};
ghost use Rattle.plane_geom.specs.Rect.{HasInside};
ghost use Rattle.route_causes.specs.Causes.{Closes, IsClosedBy, IsCoveredBy, IsFirstWith, IsOpen, LiesFree};

use plane_geom::{Point, Solid};
use walk_model::Choice;

/// Whether the solid is of another node and meets the stub of the choice.
fn closes(solid: &Solid, choice: &Choice) -> bool
    ensures { IsTrue result ↔ Closes choice.now solid.now }
{
    solid.node != choice.node && solid.rect.overlaps_area(choice.pin, choice.port)
}

/// The node of the first solid that closes the stub of the choice, if one does.
fn first_to_close(solids: &[Solid], choice: &Choice) -> Option<i64>
    ensures closed { IfSome result (IsFirstWith (Closes choice.now) solids.now) }
    ensures free { IsNone result → HasFreeStub solids.now choice.now }
{
    for solid in solids {
        if closes(solid, choice) {
            return Some(solid.node);
        }
    }
    None
}

/// The node of the first solid in which the point lies, if there is one.
fn first_to_cover(solids: &[Solid], point: Point) -> Option<i64>
    ensures covered { IfSome result (IsFirstWith (λ s. HasInside s.rect point) solids.now) }
    ensures free { IsNone result → LiesFree solids.now point }
{
    for solid in solids {
        if solid.rect.has_inside(point) {
            return Some(solid.node);
        }
    }
    None
}

/// The node of the first solid that closes the first stub of an end, if all its stubs are closed.
pub(crate) fn closed_by(solids: &[Solid], choices: &[Choice]) -> Option<i64>
    ensures closed { IfSome result (IsClosedBy solids.now choices.now) }
    ensures open { IsNone result → IsOpen solids.now choices.now }
{
    for choice in choices {
        first_to_close(solids, choice)?;
    }
    first_to_close(solids, choices.first()?)
}

/// The first checkpoint that lies in a solid, from 1, with the node of the first such solid.
pub(crate) fn covered_by(solids: &[Solid], via: &[Point]) -> Option<(u32, i64)>
    requires { length via.now ≤ 4 }
    ensures covered { IfSome result (λ found. IsCoveredBy solids.now via.now found.0 found.1) }
    ensures free { IsNone result → All (LiesFree solids.now) via.now }
{
    for (index, point) in via.iter().enumerate() {
        if let Some(node) = first_to_cover(solids, *point) {
            return Some((index as u32 + 1, node));
        }
    }
    None
}
