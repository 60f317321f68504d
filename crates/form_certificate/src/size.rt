//! The size of the scenes that have certificates.
ghost use Rattle.std.specs.Prelude.{◌≡◌};
ghost use Rattle.form_certificate.specs.Sizes.{too_large};

use diagram_read::Part;
use scene_store::Scene;

/// The most nodes, edges, added pins and checkpoints of a scene that has a certificate.
const MOST_NODES: usize = 48;

const MOST_PINS: usize = 48;

const MOST_EDGES: usize = 64;

const MOST_VIAS: usize = 48;

/// The first part of which the scene has more than a scene with a certificate may have: more than 48 nodes, 48 added
/// pins, 64 edges or 48 checkpoints, in this order.
pub fn too_large(scene: &Scene) -> Option<Part>
    ensures { result ≡ too_large scene.now }
{
    if scene.nodes().len() > MOST_NODES {
        Some(Part::Node)
    } else if scene.pin_count() > MOST_PINS {
        Some(Part::Pin)
    } else if scene.edges().len() > MOST_EDGES {
        Some(Part::Edge)
    } else if scene.via_count() > MOST_VIAS {
        Some(Part::Via)
    } else {
        None
    }
}
