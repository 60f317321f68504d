//! The lines in the report of a replay for the routes at its end.
ghost use Rattle.std.specs.Prelude.{◌≡◌, ◌++◌, OnErr, OnOk};
ghost use Rattle.report_text.specs.Routed.{routed_line, routed_lines, routed_text};

use crate::number::{push_cost, push_numbered};
use std::alloc::AllocError;

/// The route of an edge, as far as the report gives it.
#[derive(Clone, Copy, Debug, PartialEq, Eq)]
pub enum Routed {
    /// The edge leads from a node to itself, and has no route.
    Loop,
    /// There is no legal walk.
    NoRoute,
    /// The cost of the first legal walk.
    Cost(u64),
}

/// The route of the edge with this number, as far as the report gives it.
#[derive(Clone, Copy, Debug, PartialEq, Eq)]
pub struct EdgeRouted {
    pub edge: u32,
    pub routed: Routed,
}

/// Appends one line for each edge.
pub fn push_routed_lines(out: &mut Vec<u8>, edges: &[EdgeRouted]) -> Result<(), AllocError>
    ensures ok { OnOk result (out.new.items ≡ out.old.items ++ routed_lines edges.now) }
    ensures err { OnErr result (out.new.items ≡ out.old.items) }
{
    let mut text = Vec::new(*out.allocator());
    for edge in edges {
        push_routed_line(&mut text, edge)?;
    }
    out.extend_from_slice(&text)
}

fn push_routed_line(out: &mut Vec<u8>, edge: &EdgeRouted) -> Result<(), AllocError>
    ensures { OnOk result (out.new.items ≡ out.old.items ++ routed_line edge.now) }
{
    push_numbered(out, b"# edge ", u64::from(edge.edge))?;
    out.extend_from_slice(b": ")?;
    push_routed(out, &edge.routed)?;
    out.push(b'\n')?;
    Ok(())
}

/// Appends how an edge is routed.
pub fn push_routed(out: &mut Vec<u8>, routed: &Routed) -> Result<(), AllocError>
    ensures { OnOk result (out.new.items ≡ out.old.items ++ routed_text routed.now) }
{
    match *routed {
        Routed::Loop => out.extend_from_slice(b"loop"),
        Routed::NoRoute => out.extend_from_slice(b"no route"),
        Routed::Cost(cost) => push_cost(out, cost),
    }
}
