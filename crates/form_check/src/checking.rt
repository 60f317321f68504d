//! The check of the lines of a diagram.
ghost use Rattle.std.specs.Prelude.{◌≡◌, ◌≢◌, All, IfOk, IfErr, IfSome, Ok, Some};
ghost use Rattle.std.specs.List.{AllZip, list_any};
ghost use Rattle.plane_geom.specs.Rect.{RectIsOnSheet};
ghost use Rattle.gml_text.specs.View.{tree};
ghost use Rattle.walk_model.specs.Line.{IsPolyline};
ghost use Rattle.scene_model.specs.Scene.{edge_with};
ghost use Rattle.scene_model.specs.Routing.{solids as solids_of};
ghost use Rattle.report_text.specs.Findings.{finding_lines};
ghost use Rattle.report_text.specs.Outcome.{unsearched};
ghost use Rattle.form_check.specs.Checks.{Checks, IsFinding, IsLineFault, IsLineFinding, check_status, first_line_fault, is_breach, line_fault};
ghost use Rattle.form_check.specs.Sizes.{HasFewPairs};

use diagram_read::{DiagramFault, line_of};
use gml_text::Doc;
use plane_geom::{Points, Solid};
use report_text::{EdgeFinding, Finding, Outcome, Status, no_diagram, push_finding_lines};
use route_check::check;
use scene_model::Edge;
use scene_store::Scene;
use std::alloc::{AllocError, Global};

/// The result for the line of a connector, if it has one.
fn line_finding(
    scene: &Scene,
    solids: &[Solid],
    edge: &Edge,
    line: Option<Points>,
) -> Result<Finding, AllocError>
    requires on_sheet { All (λ s. RectIsOnSheet s.rect) solids.now }
    requires solids { solids.now ≡ solids_of scene.now }
    requires edge { edge_with scene.now edge.now.number ≡ Some edge.now }
    requires connector { edge.now.from ≢ edge.now.to }
    requires line { IfSome line IsPolyline }
    ensures { IfOk result (IsLineFinding scene.now edge.now (Ok line)) }
{
    match line {
        Some(points) => {
            let task = scene.task(edge.number)?;
            Ok(Finding::Judged(check(solids, &task, points.as_slice())))
        }
        None => Ok(Finding::NoLine),
    }
}

/// The result for an edge.
fn finding_of(
    alloc: Global,
    doc: &Doc,
    scene: &Scene,
    solids: &[Solid],
    edge: &Edge,
) -> Result<EdgeFinding, DiagramFault>
    requires doc { HasFewPairs (tree doc.now) }
    requires on_sheet { All (λ s. RectIsOnSheet s.rect) solids.now }
    requires solids { solids.now ≡ solids_of scene.now }
    requires edge { edge_with scene.now edge.now.number ≡ Some edge.now }
    ensures ok { IfOk result (IsFinding (tree doc.now) scene.now edge.now) }
    ensures err { IfErr result (IsLineFault (line_fault (tree doc.now) edge.now)) }
{
    let finding = if edge.from == edge.to {
        Finding::Loop
    } else {
        let line = line_of(alloc, doc, edge)?;
        line_finding(scene, solids, edge, line)?
    };
    Ok(EdgeFinding {
        edge: edge.number,
        finding,
    })
}

/// The results for the edges, in order, or the first fault of their lines.
fn findings_of(alloc: Global, doc: &Doc, scene: &Scene) -> Result<Vec<EdgeFinding>, DiagramFault>
    requires { HasFewPairs (tree doc.now) }
    ensures ok { IfOk result (λ fs. AllZip (IsFinding (tree doc.now) scene.now) scene.now.edges fs.items) }
    ensures err { IfErr result (IsLineFault (first_line_fault (tree doc.now) scene.now.edges)) }
{
    let floor = scene.floor()?;
    let mut findings = Vec::with_capacity(alloc, scene.edges().len())?;
    for edge in scene.edges() {
        findings.push(finding_of(alloc, doc, scene, floor.solids.as_slice(), edge)?)?;
    }
    Ok(findings)
}

/// Whether a line breaks a rule.
fn is_breach(finding: &Finding) -> bool
    ensures { result ≡ is_breach finding.now }
{
    matches!(finding, Finding::Judged(Err(_)))
}

/// Whether some line breaks a rule.
fn has_breach(findings: &[EdgeFinding]) -> bool
    ensures { result ≡ list_any (λ f. is_breach f.finding) findings.now }
{
    findings.iter().any(|found| is_breach(&found.finding))
}

/// How a check ends in which a line breaks a rule, or none.
fn status_of(has_breach: bool) -> Status
    ensures { result ≡ check_status has_breach }
{
    if has_breach {
        Status::BadLine
    } else {
        Status::Done
    }
}

/// The outcome of a check with these results.
fn outcome_of(alloc: Global, findings: &[EdgeFinding]) -> Result<Outcome, AllocError>
    ensures { IfOk result (λ o. o ≡ unsearched
        (check_status (list_any (λ f. is_breach f.finding) findings.now)) (finding_lines findings.now)) }
{
    let mut text = Vec::new(alloc);
    push_finding_lines(&mut text, findings)?;
    let status = status_of(has_breach(findings));
    Ok(Outcome::unsearched(status, text))
}

/// Checks the lines that the document draws for the edges of the scene, which has to be the one that
/// is read from the document.
///
/// The text has one line for each edge: its cost, the first rule that it breaks, that it has no line,
/// or that it is a loop. Where a line cannot be read, the text is the fault of the first such line. The only error is
/// out of memory.
pub fn check_lines(alloc: Global, doc: &Doc, scene: &Scene) -> Result<Outcome, AllocError>
    requires { HasFewPairs (tree doc.now) }
    ensures { IfOk result (Checks (tree doc.now) scene.now) }
{
    match findings_of(alloc, doc, scene) {
        Ok(findings) => outcome_of(alloc, &findings),
        Err(DiagramFault::Memory) => Err(AllocError),
        Err(fault) => no_diagram(alloc, &fault),
    }
}
