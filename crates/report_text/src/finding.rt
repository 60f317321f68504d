//! The result of checking the line that a diagram has for an edge.
ghost use Rattle.std.specs.Prelude.{◌≡◌, ◌++◌, OnErr, OnOk, Err};
ghost use Rattle.route_check.specs.declared.verdict.Breach.TheVariants.{Hits};
ghost use Rattle.report_text.specs.Findings.{finding_line, finding_lines, finding_text, verdict_text};

use crate::number::{push_cost, push_numbered, push_signed};
use route_check::Breach;
use std::alloc::AllocError;

/// The result of checking the line that a diagram has for an edge.
#[derive(Clone, Copy, Debug, PartialEq, Eq)]
pub enum Finding {
    /// The edge leads from a node to itself, and its line is not checked.
    Loop,
    /// The edge has no line.
    NoLine,
    /// The cost of its line, or the first rule that the line breaks.
    Judged(Result<u64, Breach>),
}

/// The result for the edge with this number.
#[derive(Clone, Copy, Debug, PartialEq, Eq)]
pub struct EdgeFinding {
    pub edge: u32,
    pub finding: Finding,
}

/// Appends one line for each edge.
pub fn push_finding_lines(out: &mut Vec<u8>, findings: &[EdgeFinding]) -> Result<(), AllocError>
    ensures ok { OnOk result (out.new.items ≡ out.old.items ++ finding_lines findings.now) }
    ensures err { OnErr result (out.new.items ≡ out.old.items) }
{
    let mut text = Vec::new(*out.allocator());
    for finding in findings {
        push_finding_line(&mut text, finding)?;
    }
    out.extend_from_slice(&text)
}

fn push_finding_line(out: &mut Vec<u8>, finding: &EdgeFinding) -> Result<(), AllocError>
    ensures { OnOk result (out.new.items ≡ out.old.items ++ finding_line finding.now) }
{
    push_numbered(out, b"edge ", u64::from(finding.edge))?;
    out.extend_from_slice(b": ")?;
    push_finding(out, &finding.finding)?;
    out.push(b'\n')?;
    Ok(())
}

fn push_finding(out: &mut Vec<u8>, finding: &Finding) -> Result<(), AllocError>
    ensures { OnOk result (out.new.items ≡ out.old.items ++ finding_text finding.now) }
{
    match finding {
        Finding::Loop => out.extend_from_slice(b"loop"),
        Finding::NoLine => out.extend_from_slice(b"no line"),
        Finding::Judged(verdict) => push_verdict(out, verdict),
    }
}

fn push_verdict(out: &mut Vec<u8>, verdict: &Result<u64, Breach>) -> Result<(), AllocError>
    ensures { OnOk result (out.new.items ≡ out.old.items ++ verdict_text verdict.now) }
{
    match *verdict {
        Ok(cost) => push_cost(out, cost),
        Err(Breach::Slanted { segment }) => push_numbered(out, b"Slanted ", u64::from(segment)),
        Err(Breach::StartOff) => out.extend_from_slice(b"StartOff"),
        Err(Breach::EndOff) => out.extend_from_slice(b"EndOff"),
        Err(Breach::Hits { segment, node }) => push_hit(out, segment, node),
        Err(Breach::MissesVia { place }) => push_numbered(out, b"MissesVia ", u64::from(place)),
    }
}

fn push_hit(out: &mut Vec<u8>, segment: u32, node: i64) -> Result<(), AllocError>
    ensures { OnOk result (out.new.items ≡ out.old.items ++ verdict_text (Err (Hits segment node))) }
{
    push_numbered(out, b"Hits ", u64::from(segment))?;
    out.extend_from_slice(b" node ")?;
    push_signed(out, node)
}
