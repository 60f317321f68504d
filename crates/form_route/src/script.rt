//! A script on a diagram, from its commands to the bytes of the output.
ghost use Rattle.std.specs.Prelude.{◌≡◌, ◌<◌, ◌≤◌, ◌^◌, IfOk, IsOk, Ok, OnOk, length};
ghost use Rattle.gml_text.specs.Printed.{IsPrintable};
ghost use Rattle.gml_text.specs.View.{tree};
ghost use Rattle.gml_scene.specs.Diagram.{EndsInDiagram};
ghost use Rattle.gml_scene.specs.Origins.{AreEdgesOf, AreNodesOf};
ghost use Rattle.gml_scene.specs.Labels.{no_labels};
ghost use Rattle.diagram_read.specs.Scene.{scene_of};
ghost use Rattle.session_model.specs.Calls.{AreDirected};
ghost use Rattle.form_route.specs.Diagram.{IsOutput};
ghost use Rattle.form_route.specs.Routes.{Replays};

use crate::report::{hint_of, report, status_of};
use gml_scene::{Labels, push_diagram};
use gml_text::Doc;
use par_route::Gate;
use report_text::{LineReply, Outcome};
use route_session::Session;
use scene_model::Command;
use scene_store::Scene;
use script_replay::{replay, replays_keep_origins};
use std::alloc::{AllocError, Global};
use std::thread::Threads;

/// How a script is replayed, and what its report contains.
#[derive(Clone, Copy, Debug, PartialEq, Eq)]
pub struct Options {
    /// The greatest number of searches side by side, from 1 to 4.
    pub workers: u32,
    /// Whether the report gives the numbers of connectors that were searched.
    pub count: bool,
}

/// Replays the commands, each with the number of its line, on the scene of the document. Then it
/// writes the report and the document of the scene at the end, with its nudged lines.
///
/// The only error is out of memory.
pub fn route<R: Threads + Sync, G: Gate>(
    rt: &R,
    alloc: Global,
    doc: &Doc,
    scene: Scene,
    commands: &[(usize, Command)],
    options: Options,
    gate: &G,
) -> Result<Outcome, AllocError>
    requires some { 1 ≤ options.workers }
    requires few_workers { options.workers ≤ 4 }
    requires few { length commands.now < 2 ^ 32 }
    requires directed { AreDirected commands.now }
    requires source { scene_of (tree doc.now) ≡ Ok scene }
    requires printable { IsPrintable (tree doc.now) }
    ensures { IfOk result (Replays (tree doc.now) scene commands.now options.count) }
{
    // For the proof: the scene is valid, so its replay keeps origins.
    scene.valid();
    let replayed = replay(rt, alloc, scene, commands, options.workers, gate)?;
    replays_keep_origins();
    let written = output(
        alloc,
        doc,
        options.count,
        replayed.opening,
        &replayed.replies,
        &replayed.session,
    );
    let status = status_of(&replayed.replies, &replayed.session);
    let hint = hint_of(&replayed.session);
    let tally = replayed.session.into_tally();
    let text = written?;
    Ok(Outcome::counted(status, text, tally).hinted(hint))
}

/// The report on a script whose opening searched `opening` connectors, with these replies, and with
/// this session at the end; followed by the printed document of the session's present scene.
fn output(
    alloc: Global,
    doc: &Doc,
    count: bool,
    opening: u64,
    replies: &[LineReply],
    session: &Session,
) -> Result<Vec<u8>, AllocError>
    requires source { IsOk (scene_of (tree doc.now)) }
    requires nodes { IfOk (scene_of (tree doc.now)) (λ was. AreNodesOf was session.now.world.present) }
    requires edges { IfOk (scene_of (tree doc.now)) (λ was. AreEdgesOf was session.now.world.present) }
    requires printable { IsPrintable (tree doc.now) }
    ensures { IfOk result (λ text. IfOk (scene_of (tree doc.now)) (λ was.
        IsOutput (tree doc.now) was count opening replies.now session.now.world session.now.book text.items)) }
{
    let mut text = report(alloc, count, opening, replies, session)?;
    push_unlabelled(alloc, &mut text, doc, session)?;
    Ok(text)
}

/// Appends the printed document of the session's present scene, with its nudged lines and without labels.
fn push_unlabelled(
    alloc: Global,
    text: &mut Vec<u8>,
    doc: &Doc,
    session: &Session,
) -> Result<(), AllocError>
    requires source { IsOk (scene_of (tree doc.now)) }
    requires nodes { IfOk (scene_of (tree doc.now)) (λ was. AreNodesOf was session.now.world.present) }
    requires edges { IfOk (scene_of (tree doc.now)) (λ was. AreEdgesOf was session.now.world.present) }
    requires printable { IsPrintable (tree doc.now) }
    ensures { OnOk result (IfOk (scene_of (tree doc.now)) (λ was.
        EndsInDiagram (tree doc.now) was session.now.world.present no_labels session.now.book text.old.items text.new.items)) }
{
    let labels = Labels::none(alloc);
    let answers = session.book().answers();
    push_diagram(alloc, text, doc, &labels, session.scene(), answers)
}
