//! The solids of a scene, sorted once, so that a stub is tested against those near it alone.
ghost use Rattle.std.specs.Prelude.{pos, ◌≢◌, ◌↔◌, ◌≤ℤ◌, ◌<ℤ◌, All, AllPairs, Contains, IfOk, IsTrue};
ghost use Rattle.std.proofs.Props.{props};
ghost use Rattle.move_model.specs.Places.{HasFreeStub};
ghost use Rattle.plane_geom.specs.Rect.{Meets, RectIsOnSheet};
ghost use Rattle.plane_geom.specs.declared.rect.Solid.{Solid};
ghost use Rattle.search_problem.specs.Stubs.{AreInOrder, AreSame, IsWidest};
ghost use Rattle.walk_model.specs.Choice.{IsChoice};

use plane_geom::Solid;
use std::alloc::{AllocError, Global};
use walk_model::Choice;

/// The solids of a scene by rising left side, and the width of the widest.
#[derive(Drop)]
pub struct SortedSolids {
    pub solids: Vec<Solid>,
    pub widest: i64,
    ghost ordered: { AreInOrder solids.items widest } by { Prim.hlevel props },
}

/// The width of the widest of the solids, and at least 0.
fn widest_of(solids: &[Solid]) -> i64
    requires { All (λ s. RectIsOnSheet s.rect) solids.now }
    ensures wide { IsWidest result solids.now }
    ensures low { pos 0 ≤ℤ result }
    ensures high { result ≤ℤ pos 4000000000 }
{
    let mut widest = 0;
    for solid in solids {
        widest = (solid.rect.right - solid.rect.left).max(widest);
    }
    widest
}

/// Those of the solids whose left side is before the coordinate.
fn begun_before(solids: &[Solid], at: i64) -> &[Solid]
    requires { AllPairs (λ s t. s.rect.left ≤ℤ t.rect.left) solids.now }
    ensures members { (s : Solid) → Contains result.now s ↔ (Contains solids.now s × (s.rect.left <ℤ at)) }
    ensures rise { AllPairs (λ s t. s.rect.left ≤ℤ t.rect.left) result.now }
{
    let (before, _) = solids.split_at(solids.partition_point(|solid| solid.rect.left < at));
    before
}

/// Those of the solids whose left side is beyond the coordinate.
fn begun_beyond(solids: &[Solid], at: i64) -> &[Solid]
    requires { AllPairs (λ s t. s.rect.left ≤ℤ t.rect.left) solids.now }
    ensures { (s : Solid) → Contains result.now s ↔ (Contains solids.now s × (at <ℤ s.rect.left)) }
{
    let (_, beyond) = solids.split_at(solids.partition_point(|solid| solid.rect.left <= at));
    beyond
}

/// Whether the solid is of another node and the stub of the choice meets it.
fn is_met(solid: &Solid, choice: &Choice) -> bool
    requires solid { RectIsOnSheet solid.now.rect }
    requires choice { IsChoice choice.now }
    ensures { IsTrue result ↔ (solid.now.node ≢ choice.now.node) × Meets solid.now.rect choice.now.pin choice.now.port }
{
    solid.node != choice.node && solid.rect.meets(choice.pin, choice.port)
}

/// Whether the stub of the choice meets none of the solids that are of another node.
fn is_clear_of(solids: &[Solid], choice: &Choice) -> bool
    requires solids { All (λ s. RectIsOnSheet s.rect) solids.now }
    requires choice { IsChoice choice.now }
    ensures { IsTrue result ↔ HasFreeStub solids.now choice.now }
{
    for solid in solids {
        if is_met(solid, choice) {
            return false;
        }
    }
    true
}

impl SortedSolids {
    /// The solids, sorted. The only error is out of memory.
    pub fn new(alloc: Global, solids: &[Solid]) -> Result<SortedSolids, AllocError>
        requires { All (λ s. RectIsOnSheet s.rect) solids.now }
        ensures { IfOk result (λ sorted. AreSame solids.now sorted.solids.items) }
    {
        let widest = widest_of(solids);
        let mut sorted = solids.to_vec(alloc)?;
        sorted.sort_unstable_by_key(|solid| solid.rect.left);
        Ok(SortedSolids {
            solids: sorted,
            widest,
        })
    }

    /// Those of the solids that begin no further from the stub of the choice than the widest could.
    fn near(&self, choice: &Choice) -> &[Solid]
        requires { IsChoice choice.now }
        ensures members { (s : Solid) → Contains result.now s → Contains self.now.solids.items s }
        ensures met { (s : Solid) → Contains self.now.solids.items s → Meets s.rect choice.now.pin choice.now.port → Contains result.now s }
    {
        let (pin, port) = (choice.pin.x, choice.port.x);
        let before = begun_before(self.solids.as_slice(), pin.max(port));
        begun_beyond(before, pin.min(port) - self.widest)
    }

    /// Whether the stub of the choice meets no solid of another node. Only solids near the stub are
    /// tested.
    pub fn has_free_stub(&self, choice: &Choice) -> bool
        requires { IsChoice choice.now }
        ensures { IsTrue result ↔ HasFreeStub self.now.solids.items choice.now }
    {
        is_clear_of(self.near(choice), choice)
    }
}
