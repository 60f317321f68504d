//! The audit of a certificate of a scene.
ghost use Rattle.std.specs.Prelude.{◌≡◌, IfOk, OnOk};
ghost use Rattle.std.specs.List.{AllZip};
ghost use Rattle.scene_model.specs.Scene.{connectors};
ghost use Rattle.proof_model.specs.Scenes.{HoldsClaim};
ghost use Rattle.report_text.specs.Audits.{audit_line_line};
ghost use Rattle.route_audit.specs.Audits.{IsAudited};
ghost use Rattle.report_text.specs.Outcome.{uncounted};
ghost use Rattle.form_certificate.specs.Auditing.{AuditsCertificate, Says};

use proof_model::Proof;
use proof_text::{ProofFault, read_proofs};
use report_text::{
    Outcome, Status, push_audit_line_line, push_audit_rule_line, push_audit_yes_line,
};
use route_audit::{AuditFault, audit};
use scene_store::Scene;
use std::alloc::{AllocError, Global};
use visibility_graph::Graph;

/// The audit of the proofs, by a graph of the scene's own.
fn audit_proofs(alloc: Global, scene: &Scene, proofs: &[Proof]) -> Result<(), AuditFault>
    ensures audited { IsAudited scene.now proofs.now result }
    ensures claims { OnOk result (AllZip (HoldsClaim scene.now) (connectors scene.now) proofs.now) }
{
    let floor = scene.floor()?;
    let graph = Graph::build(alloc, &floor)?;
    audit(alloc, scene, &graph, proofs)
}

/// The outcome of an audit with this answer.
fn answer(alloc: Global, audited: Result<(), AuditFault>) -> Result<Outcome, AllocError>
    ensures { IfOk result (Says audited) }
{
    let mut text = Vec::new(alloc);
    match audited {
        Ok(()) => {
            push_audit_yes_line(&mut text)?;
            Ok(Outcome::uncounted(Status::Done, text))
        }
        Err(AuditFault::No { edge, rule }) => {
            push_audit_rule_line(&mut text, edge, rule)?;
            Ok(Outcome::uncounted(Status::AuditNo, text))
        }
        Err(AuditFault::Memory) => Err(AllocError),
    }
}

/// The outcome of an audit of a file that is not a certificate.
fn no_certificate(alloc: Global, line: u64) -> Result<Outcome, AllocError>
    ensures { IfOk result (λ o. o ≡ uncounted Status.AuditNo (audit_line_line line)) }
{
    let mut text = Vec::new(alloc);
    push_audit_line_line(&mut text, line)?;
    Ok(Outcome::uncounted(Status::AuditNo, text))
}

/// Whether the bytes are a certificate that proves the scene: each connector, in order, has one proof, and all rules
/// hold of it. If they do, each claim of the certificate is true of the scene. Otherwise the answer has the first bad
/// line of the bytes, or the first connector for which a rule fails, with the least such rule.
///
/// The only error is out of memory.
pub fn audit_certificate(
    alloc: Global,
    scene: &Scene,
    certificate: &[u8],
) -> Result<Outcome, AllocError>
    ensures { IfOk result (AuditsCertificate scene.now certificate.now) }
{
    match read_proofs(alloc, certificate) {
        Ok(proofs) => answer(alloc, audit_proofs(alloc, scene, &proofs)),
        Err(ProofFault::Line { line }) => no_certificate(alloc, line),
        Err(ProofFault::Memory) => Err(AllocError),
    }
}
