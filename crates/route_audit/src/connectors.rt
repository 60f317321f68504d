//! The audit of a scene's proofs, connector by connector.
ghost use Rattle.std.specs.Prelude.{◌≡◌, IfOk, OnOk, option_copied};
ghost use Rattle.std.specs.List.{AllZip};
ghost use Rattle.proof_model.specs.Scenes.{HoldsClaim};
ghost use Rattle.route_audit.specs.Audits.{IsAudited, IsAuditedAt, IsConnector, IsJudged};
ghost use Rattle.scene_model.specs.Routing.{floor_of};
ghost use Rattle.scene_model.specs.Scene.{connectors};
ghost use Rattle.scene_model.specs.Valid.{IsValid};

use crate::fault::AuditFault;
use crate::labels::RowIndex;
use crate::task::broken_rule;
use proof_model::{Proof, proved_scenes_hold};
use scene_store::{Edge, Scene};
use search_problem::{Problem, SortedSolids};
use std::alloc::{AllocError, Global};
use visibility_graph::Graph;

/// The least rule that the proof at the connector's place breaks, if it breaks one.
fn rule_at(
    alloc: Global,
    index: &mut RowIndex,
    scene: &Scene,
    graph: &Graph,
    edge: &Edge,
    proof: &Proof,
) -> Result<Option<u32>, AllocError>
    requires graph { graph.now.floor ≡ floor_of scene.now }
    requires connector { IsConnector scene.now edge.now }
    ensures { IfOk result (IsJudged scene.now edge.now proof.now) }
{
    if proof.edge != edge.number {
        return Ok(Some(1));
    }
    scene.valid();
    let task = scene.task(edge.number)?;
    let solids = graph.floor().solids.as_slice();
    let sorted = SortedSolids::new(alloc, solids)?;
    let problem = Problem::new(alloc, graph.arena(), solids, &sorted, &task)?;
    broken_rule(index, &problem, &proof.claim, proof.rows.as_slice())
}

/// Audits the proof at the place of the connector, if there is one.
fn audit_at(
    alloc: Global,
    index: &mut RowIndex,
    scene: &Scene,
    graph: &Graph,
    edge: &Edge,
    proof: Option<&Proof>,
) -> Result<(), AuditFault>
    requires graph { graph.now.floor ≡ floor_of scene.now }
    requires connector { IsConnector scene.now edge.now }
    ensures { IsAuditedAt scene.now edge.now (option_copied proof.entry) result }
{
    let rule = match proof {
        None => Some(1),
        Some(proof) => rule_at(alloc, index, scene, graph, edge, proof)?,
    };
    match rule {
        None => Ok(()),
        Some(rule) => Err(AuditFault::No {
            edge: edge.number,
            rule,
        }),
    }
}

/// Audits the proofs, connector by connector.
fn audit_all(
    alloc: Global,
    index: &mut RowIndex,
    scene: &Scene,
    graph: &Graph,
    proofs: &[Proof],
) -> Result<(), AuditFault>
    requires { graph.now.floor ≡ floor_of scene.now }
    ensures audited { IsAudited scene.now proofs.now result }
    ensures claims { OnOk result (AllZip (HoldsClaim scene.now) (connectors scene.now) proofs.now) }
{
    proved_scenes_hold();
    let arena = graph.arena();
    arena.laws();
    let mut audited = 0;
    for edge in scene.edges() {
        if edge.from != edge.to {
            audit_at(alloc, index, scene, graph, edge, proofs.get(audited))?;
            audited += 1;
        }
    }
    if audited < proofs.len() {
        return Err(AuditFault::No { edge: 0, rule: 1 });
    }
    Ok(())
}

/// Whether the proofs prove the scene, of whose floor the graph is.
///
/// `Ok` exactly where they do: each connector, in order, has one proof, and all rules hold. Then
/// the claim of each proof is true of its connector. Otherwise the error is the first connector for
/// which a rule fails, with the least such rule, or out of memory. Takes time that is linear in the
/// rows and in the graph.
pub fn audit(
    alloc: Global,
    scene: &Scene,
    graph: &Graph,
    proofs: &[Proof],
) -> Result<(), AuditFault>
    requires { graph.now.floor ≡ floor_of scene.now }
    ensures audited { IsAudited scene.now proofs.now result }
    ensures claims { OnOk result (AllZip (HoldsClaim scene.now) (connectors scene.now) proofs.now) }
{
    let mut index = RowIndex::new(alloc);
    audit_all(alloc, &mut index, scene, graph, proofs)
}
