//! The diagram that a session begins with.
ghost use Rattle.std.specs.Prelude.{◌≡◌, ◌≤◌, IfOk, Ok};
ghost use Rattle.gml_text.specs.Printed.{IsPrintable};
ghost use Rattle.gml_text.specs.View.{tree};
ghost use Rattle.diagram_read.specs.Scene.{scene_of};

use diagram_read::{DiagramFault, scene_of};
use gml_text::{Doc, GmlFault, parse};
use host_edge::{DiskFolder, Folder, FolderFault};
use live_replies::Live;
use par_route::OpenGate;
use report_text::{MOST_BYTES, Status, push_fault_line, push_gml_fault_line};
use scene_store::Scene;
use std::alloc::Global;
use std::thread::Threads;

/// The bytes of the diagram, or the status.
fn bytes_of(rt: &HostRuntime, alloc: Global, file: Option<String>) -> Result<Vec<u8>, Status> {
    let Some(name) = file else {
        return Vec::from_slice(alloc, b"graph [ ]").map_err(|_| Status::NoMemory);
    };
    let mut folder = DiskFolder::new(alloc, rt);
    match folder.read_file(&name, MOST_BYTES) {
        Ok(bytes) => Ok(bytes),
        Err(FolderFault::Failed) => Err(Status::ReadFault),
        Err(FolderFault::TooLong { .. }) => Err(Status::TooLong),
        Err(FolderFault::Memory) => Err(Status::NoMemory),
    }
}

/// Prints a line to standard error.
fn print_fault(rt: &HostRuntime, line: Vec<u8>) {
    if let Ok(line) = String::from_utf8(line) {
        // Where standard error is closed, the status alone reports the fault.
        let _printed = rt.eprint(&line);
    }
}

/// Prints to standard error why the bytes are not valid GML, and answers the status.
fn no_document(rt: &HostRuntime, alloc: Global, fault: &GmlFault) -> Status {
    let mut text = Vec::new(alloc);
    if *fault == GmlFault::Memory || push_gml_fault_line(&mut text, fault).is_err() {
        return Status::NoMemory;
    }
    print_fault(rt, text);
    Status::Diagram
}

/// Prints to standard error why the document is not a valid diagram, and answers the status.
fn no_diagram(rt: &HostRuntime, alloc: Global, fault: &DiagramFault) -> Status {
    let mut text = Vec::new(alloc);
    if *fault == DiagramFault::Memory || push_fault_line(&mut text, fault).is_err() {
        return Status::NoMemory;
    }
    print_fault(rt, text);
    Status::Diagram
}

/// A session on the diagram in the file, or on an empty one, or the status.
pub(crate) fn live_on<R: Threads + Sync>(
    rt: &R,
    edge: &HostRuntime,
    file: Option<String>,
    workers: u32,
) -> Result<Live, Status>
    requires some { 1 ≤ workers }
    requires few_workers { workers ≤ 4 }
{
    let alloc = edge.alloc();
    let bytes = bytes_of(edge, alloc, file)?;
    let doc = parse(alloc, &bytes).map_err(|fault| no_document(edge, alloc, &fault))?;
    let scene = scene_of(alloc, &doc).map_err(|fault| no_diagram(edge, alloc, &fault))?;
    Live::open(rt, alloc, doc, scene, workers, &OpenGate).map_err(|_| Status::NoMemory)
}
