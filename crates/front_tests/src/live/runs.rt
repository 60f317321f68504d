//! One session over input and output in memory: a row has its whole input, and the expected result.

use diagram_read::scene_of;
use gml_text::parse;
use host_edge::{LineSource, MemLines, MemSink};
use live_replies::{End, Live, ServeFault, serve};
use par_route::OpenGate;
use std::alloc::{AllocError, Global};
use std::thread::Threads;

/// The input of a session, and its expected result.
#[derive(Clone, Copy)]
pub(crate) struct Row<'a> {
    pub(crate) name: &'a str,
    pub(crate) diagram: &'a str,
    pub(crate) input: &'a [u8],
    /// The number of the read that fails, or 0.
    pub(crate) failing_read: u64,
    /// The greatest number of bytes that the output takes in a call.
    pub(crate) most: usize,
    /// The number of the write that fails, or 0.
    pub(crate) failing_write: u64,
    pub(crate) written: &'a str,
}

/// How a session ended, and whether it wrote what its row expects.
#[derive(Clone, Copy, Debug, PartialEq, Eq)]
pub(crate) struct Verdict {
    pub(crate) end: Result<End, ServeFault>,
    pub(crate) is_written: bool,
}

/// A session that writes what is expected, and ends so.
pub(crate) fn wrote(end: Result<End, ServeFault>) -> Verdict {
    Verdict {
        end,
        is_written: true,
    }
}

/// A row with this input on an empty diagram, with no faults.
pub(crate) fn whole_row<'a>(name: &'a str, input: &'a [u8], written: &'a str) -> Row<'a> {
    Row {
        name,
        diagram: "graph [ ]",
        input,
        failing_read: 0,
        most: usize::MAX,
        failing_write: 0,
        written,
    }
}

/// A session on the diagram, unless it is refused or no memory is left.
fn opened<R: Threads + Sync>(rt: &R, alloc: Global, diagram: &str) -> Option<Live> {
    let Ok(doc) = parse(alloc, diagram.as_bytes()) else {
        return None;
    };
    let Ok(scene) = scene_of(alloc, &doc) else {
        return None;
    };
    Live::open(rt, alloc, doc, scene, 1, &OpenGate).ok()
}

/// Serves these lines, with the output of the row.
fn serve_lines<R: Threads + Sync, L: LineSource>(
    rt: &R,
    alloc: Global,
    live: &mut Live,
    lines: &mut L,
    row: &Row,
) -> Result<Verdict, AllocError> {
    let writes = Vec::from_slice(alloc, &[row.failing_write])?;
    let mut out = MemSink::new(alloc, row.most.max(1), writes);
    let end = serve(rt, alloc, live, lines, &mut out, 2, &OpenGate);
    Ok(Verdict {
        end,
        is_written: out.held() == row.written.as_bytes(),
    })
}

/// Serves the input of the row.
fn serve_row<R: Threads + Sync>(
    rt: &R,
    alloc: Global,
    live: &mut Live,
    row: &Row,
) -> Result<Verdict, AllocError> {
    let reads = Vec::from_slice(alloc, &[row.failing_read])?;
    let mut lines = MemLines::new(alloc, row.input, reads)?;
    serve_lines(rt, alloc, live, &mut lines, row)
}

/// The result of a session with these lines in place of the row's, if it can be opened.
pub(crate) fn reported_lines<R: Threads + Sync, L: LineSource>(
    rt: &R,
    alloc: Global,
    lines: &mut L,
    row: &Row,
) -> Option<Verdict> {
    let mut live = opened(rt, alloc, row.diagram)?;
    serve_lines(rt, alloc, &mut live, lines, row).ok()
}

/// Serves the inputs of two rows, one after the other.
fn serve_both<R: Threads + Sync>(
    rt: &R,
    alloc: Global,
    live: &mut Live,
    first: &Row,
    second: &Row,
) -> Result<(Verdict, Verdict), AllocError> {
    let before = serve_row(rt, alloc, live, first)?;
    let after = serve_row(rt, alloc, live, second)?;
    Ok((before, after))
}

/// The result of the row's session, if it can be opened.
pub(crate) fn reported<R: Threads + Sync>(rt: &R, alloc: Global, row: &Row) -> Option<Verdict> {
    let mut live = opened(rt, alloc, row.diagram)?;
    serve_row(rt, alloc, &mut live, row).ok()
}

/// The result of the first row's session, and of the second row's input to it, if it can be opened.
pub(crate) fn both_reported<R: Threads + Sync>(
    rt: &R,
    alloc: Global,
    first: &Row,
    second: &Row,
) -> Option<(Verdict, Verdict)> {
    let mut live = opened(rt, alloc, first.diagram)?;
    serve_both(rt, alloc, &mut live, first, second).ok()
}
