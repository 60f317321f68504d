//! The diagram of a scene with its nudged lines, printed.
ghost use Rattle.std.specs.Prelude.{◌≡◌, ◌++◌, IfOk, IsOk, OnOk};
ghost use Rattle.gml_text.specs.Printed.{IsPrintable, printed};
ghost use Rattle.gml_text.specs.View.{tree};
ghost use Rattle.diagram_read.specs.Scene.{scene_of};
ghost use Rattle.scene_model.specs.Answers.{AreAnswers};
ghost use Rattle.gml_scene.specs.Diagram.{EndsInDiagram, IsDiagram};
ghost use Rattle.gml_scene.specs.Origins.{AreEdgesOf, AreNodesOf, AreRoutesOf};
ghost use Rattle.gml_scene.specs.Tree.{tree_of};

use crate::labels::Labels;
use crate::tree::put_routes;
use gml_text::{Doc, push_printed};
use nudge_phases::nudge;
use scene_store::Scene;
use std::alloc::{AllocError, Global};
use walk_model::{Answer, WrittenRoute};

/// The printed document of a scene that comes from it, with the labels of what edits added and the nudged lines of its
/// right answers. The only error is out of memory.
pub fn printed_diagram(
    alloc: Global,
    doc: &Doc,
    labels: &Labels,
    scene: &Scene,
    answers: &[Answer],
) -> Result<Vec<u8>, AllocError>
    requires source { IsOk (scene_of (tree doc.now)) }
    requires nodes { IfOk (scene_of (tree doc.now)) (λ was. AreNodesOf was scene.now) }
    requires edges { IfOk (scene_of (tree doc.now)) (λ was. AreEdgesOf was scene.now) }
    requires right { AreAnswers scene.now answers.now }
    requires printable { IsPrintable (tree doc.now) }
    ensures { IfOk result (λ text. IfOk (scene_of (tree doc.now)) (λ was. IsDiagram (tree doc.now) was scene.now labels.now answers.now text.items)) }
{
    let mut text = Vec::new(alloc);
    push_diagram(alloc, &mut text, doc, labels, scene, answers)?;
    Ok(text)
}

/// Appends the printed document of a scene that comes from it, with the labels of what edits added and the nudged lines of
/// its right answers. The only error is out of memory, which may leave a part of it.
pub fn push_diagram(
    alloc: Global,
    text: &mut Vec<u8>,
    doc: &Doc,
    labels: &Labels,
    scene: &Scene,
    answers: &[Answer],
) -> Result<(), AllocError>
    requires source { IsOk (scene_of (tree doc.now)) }
    requires nodes { IfOk (scene_of (tree doc.now)) (λ was. AreNodesOf was scene.now) }
    requires edges { IfOk (scene_of (tree doc.now)) (λ was. AreEdgesOf was scene.now) }
    requires right { AreAnswers scene.now answers.now }
    requires printable { IsPrintable (tree doc.now) }
    ensures { OnOk result (IfOk (scene_of (tree doc.now)) (λ was. EndsInDiagram (tree doc.now) was scene.now labels.now answers.now text.old.items text.new.items)) }
{
    scene.valid();
    let nudged = nudge(alloc, scene, answers)?;
    push_lines(alloc, text, doc, labels, scene, &nudged.routes)
}

/// Appends the printed document of a scene that comes from it, with these labels and lines.
fn push_lines(
    alloc: Global,
    text: &mut Vec<u8>,
    doc: &Doc,
    labels: &Labels,
    scene: &Scene,
    lines: &[WrittenRoute],
) -> Result<(), AllocError>
    requires source { IsOk (scene_of (tree doc.now)) }
    requires nodes { IfOk (scene_of (tree doc.now)) (λ was. AreNodesOf was scene.now) }
    requires edges { IfOk (scene_of (tree doc.now)) (λ was. AreEdgesOf was scene.now) }
    requires routes { AreRoutesOf scene.now lines.now }
    requires printable { IsPrintable (tree doc.now) }
    ensures { OnOk result (IfOk (scene_of (tree doc.now)) (λ was. text.new.items ≡ text.old.items ++ printed (tree_of (tree doc.now) was scene.now labels.now lines.now))) }
{
    let routed = put_routes(alloc, doc, scene, labels, lines)?;
    push_printed(text, &routed)
}
