//! The lines of proposed transactions.
ghost use Rattle.std.specs.Prelude.{◌≡◌, ◌++◌, OnErr, OnOk};
ghost use Rattle.report_text.specs.Previews.{preview_edge_line, preview_edge_lines, preview_lines, refused_preview_line};

use crate::number::push_numbered;
use crate::refusal::push_edit;
use crate::routed::{EdgeRouted, push_routed};
use scene_model::SceneFault;
use std::alloc::AllocError;

/// Appends the lines of a proposal of which no edit is refused: how many connectors a commit would search, and how each
/// edge of the new scene is routed. Proposals are numbered from 1.
pub fn push_preview_lines(
    out: &mut Vec<u8>,
    number: u64,
    searched: u64,
    edges: &[EdgeRouted],
) -> Result<(), AllocError>
    ensures ok { OnOk result (out.new.items ≡ out.old.items ++ preview_lines number searched edges.now) }
    ensures err { OnErr result (out.new.items ≡ out.old.items) }
{
    let mut text = Vec::new(*out.allocator());
    push_numbered(&mut text, b"preview ", number)?;
    push_numbered(&mut text, b": searched ", searched)?;
    text.push(b'\n')?;
    push_preview_edges(&mut text, number, edges)?;
    out.extend_from_slice(&text)
}

/// Appends one line for each edge.
fn push_preview_edges(
    out: &mut Vec<u8>,
    number: u64,
    edges: &[EdgeRouted],
) -> Result<(), AllocError>
    ensures { OnOk result (out.new.items ≡ out.old.items ++ preview_edge_lines number edges.now) }
{
    for edge in edges {
        push_preview_edge(out, number, edge)?;
    }
    Ok(())
}

fn push_preview_edge(out: &mut Vec<u8>, number: u64, edge: &EdgeRouted) -> Result<(), AllocError>
    ensures { OnOk result (out.new.items ≡ out.old.items ++ preview_edge_line number edge.now) }
{
    push_numbered(out, b"preview ", number)?;
    push_numbered(out, b" edge ", u64::from(edge.edge))?;
    out.extend_from_slice(b": ")?;
    push_routed(out, &edge.routed)?;
    out.push(b'\n')?;
    Ok(())
}

/// Appends the line of a proposal of which the edit at the place, from 1, is refused.
pub fn push_refused_preview(
    out: &mut Vec<u8>,
    number: u64,
    place: u32,
    fault: &SceneFault,
) -> Result<(), AllocError>
    ensures ok { OnOk result (out.new.items ≡ out.old.items ++ refused_preview_line number place fault.now) }
    ensures err { OnErr result (out.new.items ≡ out.old.items) }
{
    let mut text = Vec::new(*out.allocator());
    push_numbered(&mut text, b"preview ", number)?;
    text.extend_from_slice(b": ")?;
    push_edit(&mut text, fault)?;
    push_numbered(&mut text, b" at edit ", u64::from(place))?;
    text.push(b'\n')?;
    out.extend_from_slice(&text)
}
