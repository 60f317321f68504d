//! One run of the program on files in memory: a row has its whole input, and the expected result.

use host_edge::{MemFolder, MemSink, NamedFile};
use par_route::{Gate, OpenGate};
use reroute_app::{Exit, Status, exit_of, run, run_gated};
use route_search::Tally;
use std::alloc::{AllocError, Global};
use std::thread::Threads;

/// The input of a run, and its expected result.
#[derive(Clone, Copy)]
pub(crate) struct Row<'a> {
    /// The arguments, separated by bars.
    pub(crate) words: &'a str,
    /// The file `d.gml`.
    pub(crate) diagram: &'a [u8],
    /// The file `s.txt`.
    pub(crate) second: &'a [u8],
    /// The number of the read that fails, or 0.
    pub(crate) failing_read: u64,
    /// The greatest number of bytes that the sink takes in a call.
    pub(crate) most: usize,
    /// The number of the write that fails, or 0.
    pub(crate) failing_write: u64,
    pub(crate) status: Status,
    /// The bytes that the sink holds at the end, or `None` where they are not compared.
    pub(crate) output: Option<&'a str>,
}

/// A run in which no read and no write fails.
pub(crate) fn faultless<'a>(
    words: &'a str,
    diagram: &'a [u8],
    second: &'a [u8],
    status: Status,
    output: Option<&'a str>,
) -> Row<'a> {
    Row {
        words,
        diagram,
        second,
        failing_read: 0,
        most: usize::MAX,
        failing_write: 0,
        status,
        output,
    }
}

fn owned(alloc: Global, words: &str) -> Result<Vec<String>, AllocError> {
    let mut all = Vec::new(alloc);
    for word in words.split('|') {
        all.push(String::from_str(alloc, word)?)?;
    }
    Ok(all)
}

fn named(alloc: Global, name: &str, bytes: &[u8]) -> Result<NamedFile, AllocError> {
    let bytes = Vec::from_slice(alloc, bytes)?;
    let name = String::from_str(alloc, name)?;
    Ok(NamedFile { name, bytes })
}

fn files(alloc: Global, row: &Row) -> Result<Vec<NamedFile>, AllocError> {
    let diagram = named(alloc, "d.gml", row.diagram)?;
    let second = named(alloc, "s.txt", row.second)?;
    Ok(vec![in alloc; diagram, second]?)
}

fn folder(alloc: Global, row: &Row) -> Result<MemFolder, AllocError> {
    let fails = Vec::from_slice(alloc, &[row.failing_read])?;
    let files = files(alloc, row)?;
    Ok(MemFolder::new(alloc, files, fails))
}

fn sink(alloc: Global, row: &Row) -> Result<MemSink, AllocError> {
    let fails = Vec::from_slice(alloc, &[row.failing_write])?;
    Ok(MemSink::new(alloc, row.most.max(1), fails))
}

/// Whether a run that ended so is the row's.
fn is_expected(row: &Row, status: Status, held: &[u8]) -> bool {
    let is_output = match row.output {
        Some(output) => held == output.as_bytes(),
        None => true,
    };
    is_output && status == row.status
}

fn ends_in_sink<G: Gate>(
    rt: &(impl Threads + Sync),
    alloc: Global,
    row: &Row,
    gate: &G,
    words: &[String],
    folder: &mut MemFolder,
    tally: &mut Tally,
) -> Result<bool, AllocError> {
    let mut sink = sink(alloc, row)?;
    let status = run_gated(rt, alloc, words, folder, &mut sink, gate, tally);
    Ok(is_expected(row, status, sink.held()))
}

fn ends_in_folder<G: Gate>(
    rt: &(impl Threads + Sync),
    alloc: Global,
    row: &Row,
    gate: &G,
    words: &[String],
    tally: &mut Tally,
) -> Result<bool, AllocError> {
    let mut folder = folder(alloc, row)?;
    ends_in_sink(rt, alloc, row, gate, words, &mut folder, tally)
}

/// Whether the row ends as expected with this gate, and the number of searches.
pub(crate) fn ends_gated<G: Gate>(
    rt: &(impl Threads + Sync),
    alloc: Global,
    row: &Row,
    gate: &G,
) -> Result<(bool, u64), AllocError> {
    let words = owned(alloc, row.words)?;
    let mut tally = Tally::new();
    let ends = ends_in_folder(rt, alloc, row, gate, &words, &mut tally)?;
    Ok((ends, tally.count()))
}

/// Whether the row ends as expected.
pub(crate) fn ends(
    rt: &(impl Threads + Sync),
    alloc: Global,
    row: &Row,
) -> Result<bool, AllocError> {
    ends_gated(rt, alloc, row, &OpenGate).map(|(ends, _)| ends)
}

fn written_in_folder(
    rt: &(impl Threads + Sync),
    alloc: Global,
    row: &Row,
    words: &[String],
    folder: &mut MemFolder,
) -> Result<Vec<u8>, AllocError> {
    let mut sink = sink(alloc, row)?;
    let _status = run(rt, alloc, words, folder, &mut sink, &mut Tally::new());
    Vec::from_slice(alloc, sink.held())
}

/// What the program writes for the row.
pub(crate) fn written(
    rt: &(impl Threads + Sync),
    alloc: Global,
    row: &Row,
) -> Result<Vec<u8>, AllocError> {
    let words = owned(alloc, row.words)?;
    let mut folder = folder(alloc, row)?;
    written_in_folder(rt, alloc, row, &words, &mut folder)
}

fn exit_in_folder(
    rt: &(impl Threads + Sync),
    alloc: Global,
    row: &Row,
    arguments: Vec<String>,
    folder: &mut MemFolder,
) -> Result<Exit, AllocError> {
    let mut sink = sink(alloc, row)?;
    Ok(exit_of(rt, alloc, &Ok(arguments), folder, &mut sink))
}

/// How the program ends on the row.
pub(crate) fn exit_on(
    rt: &(impl Threads + Sync),
    alloc: Global,
    row: &Row,
) -> Result<Exit, AllocError> {
    let mut folder = folder(alloc, row)?;
    let arguments = owned(alloc, row.words)?;
    exit_in_folder(rt, alloc, row, arguments, &mut folder)
}
