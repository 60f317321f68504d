//! The proofs of a scene.
ghost use Rattle.std.specs.Prelude.{◌≡◌, ◌≢◌, ◌++◌, ◌∷◌, [], IfOk, OnOk, Contains, Some};
ghost use Rattle.std.specs.List.{AllZip};
ghost use Rattle.line_arena.specs.Stands.{StandsFor};
ghost use Rattle.scene_model.specs.Routing.{floor_of, solids};
ghost use Rattle.scene_model.specs.Scene.{connectors, edge_with};
ghost use Rattle.scene_model.specs.Valid.{IsValid};
ghost use Rattle.proof_model.specs.LeastLabels.{IsLeastProof};
ghost use Rattle.proof_model.specs.Scenes.{ProveScene};
ghost use Rattle.proof_text.specs.Text.{AreWritable};
ghost use Rattle.proof_search.specs.Provers.{HasSpots};

use crate::prover::Prover;
use proof_model::Proof;
use scene_model::Edge;
use scene_store::Scene;
use std::alloc::{AllocError, Global};
use visibility_graph::Graph;

/// The proof of a connector.
fn proof_of(scene: &Scene, edge: &Edge, prover: &mut Prover<'_>) -> Result<Proof, AllocError>
    requires is { edge_with scene.now edge.now.number ≡ Some edge.now }
    requires connector { edge.now.from ≢ edge.now.to }
    requires stands { StandsFor (floor_of scene.now) prover.old.finder.arena.now }
    requires solids { prover.old.finder.solids.now ≡ solids scene.now }
    requires spots { HasSpots prover.old }
    ensures least { IfOk result (IsLeastProof scene.now edge.now) }
    ensures arena { prover.new.finder.arena.now ≡ prover.old.finder.arena.now }
    ensures solids { prover.new.finder.solids.now ≡ prover.old.finder.solids.now }
    ensures spots { HasSpots prover.new }
{
    scene.valid();
    let task = scene.task(edge.number)?;
    prover.proof(edge.number, &task)
}

/// The proofs of all connectors, in order.
fn proofs_of(
    alloc: Global,
    scene: &Scene,
    prover: &mut Prover<'_>,
) -> Result<Vec<Proof>, AllocError>
    requires stands { StandsFor (floor_of scene.now) prover.old.finder.arena.now }
    requires solids { prover.old.finder.solids.now ≡ solids scene.now }
    requires spots { HasSpots prover.old }
    ensures { IfOk result
        (λ proofs. AllZip (IsLeastProof scene.now) (connectors scene.now) proofs.items) }
{
    let mut proofs = Vec::new(alloc);
    for edge in scene.edges() {
        if edge.from != edge.to {
            let proof = proof_of(scene, edge, prover)?;
            proofs.push(proof)?;
        }
    }
    Ok(proofs)
}

/// The certificate of the scene, whose graph this is: for each connector, in order, the cost and
/// the route of its first walk, or that no walk is legal, and the least labels, which prove it.
///
/// There is one such certificate. Its only error is out of memory.
pub fn prove(alloc: Global, scene: &Scene, graph: &Graph) -> Result<Vec<Proof>, AllocError>
    requires { graph.now.floor ≡ floor_of scene.now }
    ensures least { IfOk result
        (λ proofs. AllZip (IsLeastProof scene.now) (connectors scene.now) proofs.items) }
    ensures prove { IfOk result (λ proofs. ProveScene scene.now proofs.items) }
    ensures writable { IfOk result (λ proofs. AreWritable proofs.items) }
{
    scene.valid();
    graph.arena().laws();
    let solids = graph.floor().solids.as_slice();
    let mut prover = Prover::new(alloc, graph.arena(), solids)?;
    proofs_of(alloc, scene, &mut prover)
}
