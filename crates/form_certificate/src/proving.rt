//! The certificate of a scene.
ghost use Rattle.std.specs.Prelude.{IfOk};
ghost use Rattle.std.specs.List.{AllZip};
ghost use Rattle.scene_model.specs.Scene.{connectors};
ghost use Rattle.proof_model.specs.LeastLabels.{IsLeastProof};
ghost use Rattle.form_certificate.specs.Proving.{WritesCertificate};

use proof_model::Proof;
use proof_search::prove;
use proof_text::write_proofs;
use report_text::{Outcome, Status};
use scene_store::Scene;
use std::alloc::{AllocError, Global};
use visibility_graph::Graph;

/// The proofs of the scene, by a graph of its own.
fn proofs_of(alloc: Global, scene: &Scene) -> Result<Vec<Proof>, AllocError>
    ensures { IfOk result (λ proofs. AllZip (IsLeastProof scene.now) (connectors scene.now) proofs.items) }
{
    let floor = scene.floor()?;
    let graph = Graph::build(alloc, &floor)?;
    prove(alloc, scene, &graph)
}

/// The certificate of the scene: for each connector, in order, its cost and its route, or that it has none, and the
/// least labels, which prove it. There is one such certificate. The only error is out of memory.
pub fn certificate_of(alloc: Global, scene: &Scene) -> Result<Outcome, AllocError>
    ensures { IfOk result (WritesCertificate scene.now) }
{
    let proofs = proofs_of(alloc, scene)?;
    let text = write_proofs(alloc, &proofs)?;
    Ok(Outcome::uncounted(Status::Done, text))
}
