//! The reads of files: of diagrams, and of scripts and certificates after them.
ghost use Rattle.std.specs.Prelude.{◌≡◌, IfOk, IfErr, List, None, Ok, OnOk};
ghost use Rattle.host_edge.specs.Note.{Note};
ghost use Rattle.gml_text.specs.Parse.{IsDocument};
ghost use Rattle.gml_text.specs.View.{tree};
ghost use Rattle.diagram_read.specs.Scene.{scene_of};
ghost use Rattle.form_certificate.specs.Sizes.{too_large};
ghost use Rattle.reroute_app.specs.Diagram.{HasDiagram, IsDiagram, ReadsDiagram, ReadsScript, ReadsSmall, TakesDiagram, TakesScene, UnlessLarge, most_bytes, most_certificate_bytes, most_script_bytes};
ghost use Rattle.reroute_app.specs.Reads.{HasRead, ReadsFile};
ghost use Rattle.reroute_app.specs.View.{AnyScene, HasBoth, HasCommands, HasSmall, NotesOne, NotesTwo, StopsAt, never, never_three, never_two};

use crate::stop::{Stop, no_document, read_fault, too_long};
use diagram_read::{DiagramFault, scene_of};
use edit_script::commands;
use form_certificate::too_large;
use gml_text::{Doc, GmlFault, parse};
use host_edge::{Folder, FolderFault};
use report_text::{MOST_BYTES, MOST_CERTIFICATE_BYTES, MOST_SCRIPT_BYTES, no_diagram};
use scene_model::Command;
use scene_store::Scene;
use std::alloc::Global;

/// A document and its scene.
#[derive(Drop)]
pub(crate) struct Diagram {
    pub(crate) doc: Doc,
    pub(crate) scene: Scene,
}

/// The bytes of the file with this name.
fn read_file<F: Folder>(
    alloc: Global,
    folder: &mut F,
    name: &str,
    limit: u64,
) -> Result<Vec<u8>, Stop>
    ensures read { IfOk result (λ bytes. HasRead (F.files folder.old) name.now limit
        (F.notes folder.old) (F.notes folder.new) bytes.items) }
    ensures stopped { IfErr result (StopsAt (ReadsFile (F.files folder.old) name.now limit never
        (F.notes folder.old) (F.notes folder.new))) }
    ensures notes { NotesOne name.now limit (F.notes folder.old) (F.notes folder.new) }
    ensures files_kept { F.files folder.new ≡ F.files folder.old }
{
    match folder.read_file(name, limit) {
        Ok(bytes) => Ok(bytes),
        Err(FolderFault::Failed) => Err(Stop::Ended(read_fault(alloc, name)?)),
        Err(FolderFault::TooLong { .. }) => Err(Stop::Ended(too_long(alloc, name, limit)?)),
        Err(FolderFault::Memory) => Err(Stop::Memory),
    }
}

/// The document that the bytes spell.
fn document_of(alloc: Global, bytes: &[u8]) -> Result<Doc, Stop>
    ensures ok { IfOk result (λ doc. IsDocument (tree doc) bytes.now) }
    ensures stopped { (notes : List Note) → IfErr result (StopsAt (TakesDiagram never_two bytes.now notes notes)) }
{
    match parse(alloc, bytes) {
        Ok(doc) => Ok(doc),
        Err(GmlFault::Memory) => Err(Stop::Memory),
        Err(fault) => Err(Stop::Ended(no_document(alloc, bytes, &fault)?)),
    }
}

/// The scene of a document.
fn scene_in(alloc: Global, doc: &Doc) -> Result<Scene, Stop>
    ensures ok { IfOk result (λ scene. scene_of (tree doc.now) ≡ Ok scene) }
    ensures stopped { (notes : List Note) → IfErr result (StopsAt (TakesScene never (scene_of (tree doc.now)) notes notes)) }
{
    match scene_of(alloc, doc) {
        Ok(scene) => Ok(scene),
        Err(DiagramFault::Memory) => Err(Stop::Memory),
        Err(fault) => Err(Stop::Ended(no_diagram(alloc, &fault)?)),
    }
}

/// The diagram that the bytes spell.
fn diagram_of(alloc: Global, bytes: &[u8]) -> Result<Diagram, Stop>
    ensures ok { IfOk result (λ d. IsDiagram bytes.now (tree d.doc) d.scene) }
    ensures stopped { (notes : List Note) → IfErr result (StopsAt (TakesDiagram never_two bytes.now notes notes)) }
{
    let doc = document_of(alloc, bytes)?;
    let scene = scene_in(alloc, &doc)?;
    Ok(Diagram { doc, scene })
}

/// The diagram in the file with this name.
pub(crate) fn read_diagram<F: Folder>(
    alloc: Global,
    folder: &mut F,
    name: &str,
) -> Result<Diagram, Stop>
    ensures read { IfOk result (λ d. HasDiagram (F.files folder.old) name.now
        (F.notes folder.old) (F.notes folder.new) (tree d.doc) d.scene) }
    ensures stopped { IfErr result (StopsAt (ReadsDiagram (F.files folder.old) name.now never_two
        (F.notes folder.old) (F.notes folder.new))) }
    ensures notes { NotesOne name.now most_bytes (F.notes folder.old) (F.notes folder.new) }
    ensures files_kept { F.files folder.new ≡ F.files folder.old }
{
    let bytes = read_file(alloc, folder, name, MOST_BYTES)?;
    diagram_of(alloc, &bytes)
}

/// The commands of the script in the file with this name.
fn read_commands<F: Folder>(
    alloc: Global,
    folder: &mut F,
    name: &str,
) -> Result<Vec<(usize, Command)>, Stop>
    ensures read { IfOk result (λ list. HasCommands (F.files folder.old) name.now
        (F.notes folder.old) (F.notes folder.new) list.items) }
    ensures stopped { IfErr result (StopsAt (ReadsFile (F.files folder.old) name.now most_script_bytes never
        (F.notes folder.old) (F.notes folder.new))) }
    ensures notes { NotesOne name.now most_script_bytes (F.notes folder.old) (F.notes folder.new) }
    ensures files_kept { F.files folder.new ≡ F.files folder.old }
{
    let bytes = read_file(alloc, folder, name, MOST_SCRIPT_BYTES)?;
    Ok(commands(alloc, &bytes)?)
}

/// A diagram, and the commands of a script.
#[derive(Drop)]
pub(crate) struct Scripted {
    pub(crate) diagram: Diagram,
    pub(crate) commands: Vec<(usize, Command)>,
}

/// The diagram and the commands of the script in the files with these names.
pub(crate) fn read_both<F: Folder>(
    alloc: Global,
    folder: &mut F,
    diagram: &str,
    script: &str,
) -> Result<Scripted, Stop>
    ensures read { IfOk result (λ both. HasBoth (F.files folder.old) diagram.now script.now
        (F.notes folder.old) (F.notes folder.new) (tree both.diagram.doc) both.diagram.scene both.commands.items) }
    ensures stopped { IfErr result (StopsAt (ReadsScript (F.files folder.old) diagram.now script.now never_three
        (F.notes folder.old) (F.notes folder.new))) }
    ensures notes { NotesTwo (F.files folder.old) diagram.now script.now most_script_bytes AnyScene
        (F.notes folder.old) (F.notes folder.new) }
    ensures files_kept { F.files folder.new ≡ F.files folder.old }
{
    let diagram = read_diagram(alloc, folder, diagram)?;
    let commands = read_commands(alloc, folder, script)?;
    Ok(Scripted { diagram, commands })
}

/// That the scene is small enough to have a certificate.
fn check_size(alloc: Global, scene: &Scene) -> Result<(), Stop>
    ensures ok { OnOk result (too_large scene.now ≡ None) }
    ensures stopped { (notes : List Note) → IfErr result (StopsAt (UnlessLarge (too_large scene.now) (never scene.now) notes notes)) }
{
    match too_large(scene) {
        None => Ok(()),
        Some(part) => Err(Stop::Ended(no_diagram(alloc, &DiagramFault::TooMany { part })?)),
    }
}

/// The diagram in the file with this name, if its scene is small enough to have a certificate.
pub(crate) fn read_small<F: Folder>(
    alloc: Global,
    folder: &mut F,
    name: &str,
) -> Result<Diagram, Stop>
    ensures read { IfOk result (λ d. HasSmall (F.files folder.old) name.now
        (F.notes folder.old) (F.notes folder.new) (tree d.doc) d.scene) }
    ensures stopped { IfErr result (StopsAt (ReadsSmall (F.files folder.old) name.now never
        (F.notes folder.old) (F.notes folder.new))) }
    ensures notes { NotesOne name.now most_bytes (F.notes folder.old) (F.notes folder.new) }
    ensures files_kept { F.files folder.new ≡ F.files folder.old }
{
    let diagram = read_diagram(alloc, folder, name)?;
    check_size(alloc, &diagram.scene)?;
    Ok(diagram)
}

/// The bytes of the certificate in the file with this name.
pub(crate) fn read_certificate<F: Folder>(
    alloc: Global,
    folder: &mut F,
    name: &str,
) -> Result<Vec<u8>, Stop>
    ensures read { IfOk result (λ bytes. HasRead (F.files folder.old) name.now most_certificate_bytes
        (F.notes folder.old) (F.notes folder.new) bytes.items) }
    ensures stopped { IfErr result (StopsAt (ReadsFile (F.files folder.old) name.now most_certificate_bytes never
        (F.notes folder.old) (F.notes folder.new))) }
    ensures notes { NotesOne name.now most_certificate_bytes (F.notes folder.old) (F.notes folder.new) }
    ensures files_kept { F.files folder.new ≡ F.files folder.old }
{
    read_file(alloc, folder, name, MOST_CERTIFICATE_BYTES)
}
