//! The data of a node that a task uses, and the solids that only one of two scenes has.
ghost use Rattle.std.specs.Prelude.{◌≡◌, ◌↔◌, Contains, IfOk, IsTrue};
ghost use Rattle.route_book.specs.Shapes.{AskSame, shape_of};
ghost use Rattle.route_book.specs.Solids.{AreRemoved};
ghost use Rattle.scene_model.specs.Routing.{solids};
ghost use Rattle.scene_model.specs.Stale.{shape};
ghost use Rattle.scene_model.specs.Valid.{IsNode, IsValid};

use plane_geom::Solid;
use scene_store::{Edge, Node, Scene};
use std::alloc::{AllocError, Global};

/// Whether a task uses the same data of both nodes.
fn look_same(one: &Node, other: &Node) -> bool
    requires one { IsNode one.now }
    requires other { IsNode other.now }
    ensures { IsTrue result ↔ (shape_of one.now ≡ shape_of other.now) }
{
    one.rect() == other.rect()
        && one.group == other.group
        && one.pins.as_slice() == other.pins.as_slice()
}

/// Whether a task uses the same data of the node with the id in both scenes.
pub(crate) fn has_same_shape(old: &Scene, new: &Scene, id: i64) -> bool
    requires old { IsValid old.now }
    requires new { IsValid new.now }
    ensures { IsTrue result ↔ (shape old.now id ≡ shape new.now id) }
{
    match (old.node(id), new.node(id)) {
        (Some(one), Some(other)) => look_same(one, other),
        (None, None) => true,
        _ => false,
    }
}

/// Whether both edges have the same ends, classes and checkpoints.
pub(crate) fn ask_same(one: &Edge, other: &Edge) -> bool
    ensures { IsTrue result ↔ AskSame one.now other.now }
{
    (one.from, one.to) == (other.from, other.to)
        && (one.from_class, one.to_class) == (other.from_class, other.to_class)
        && one.via.as_slice() == other.via.as_slice()
}

/// Whether the scene has the solid.
fn has_solid(scene: &Scene, solid: Solid) -> bool
    ensures { IsTrue result ↔ Contains (solids scene.now) solid }
{
    let settings = scene.settings();
    let Some(node) = scene.node(solid.node) else {
        return false;
    };
    let Some(own) = node.solid(settings) else {
        return false;
    };
    own == solid
}

/// The solids that the old scene has and the new one has not.
pub(crate) fn removed(alloc: Global, old: &Scene, new: &Scene) -> Result<Vec<Solid>, AllocError>
    ensures { IfOk result (λ v. AreRemoved old.now new.now v.items) }
{
    let settings = old.settings();
    let mut removed = Vec::new(alloc);
    for node in old.nodes() {
        if let Some(solid) = node.solid(settings) {
            if !has_solid(new, solid) {
                removed.push(solid)?;
            }
        }
    }
    Ok(removed)
}
