//! What is said of the present scene: the paths that routes share, crossings, and the verdict on a line that is given.
ghost use Rattle.std.specs.Prelude.{◌≡◌, ◌⊎◌, ◌++◌, [], ◌∷◌, IfOk};
ghost use Rattle.report_text.specs.Findings.{finding_lines};
ghost use Rattle.live_replies.specs.Checks.{SaysCrossings, SaysShared, SaysVerdict, verdict_of};
ghost use Rattle.live_replies.specs.Said.{said_bytes};
ghost use Rattle.live_replies.specs.Texts.{no_memory_line, ok_line};

use crate::line::push_ok;
use crate::reply::{Said, refused};
use drawing::Drawing;
use plane_geom::Point;
use report_text::{
    EdgeFinding, Finding, Refusal, push_crossings_line, push_finding_lines, push_shared_lines,
};
use route_check::Breach;
use scene_model::{SceneFault, SessionFault};
use std::alloc::{AllocError, Global};

/// The text that reports the paths that routes share.
pub(crate) fn shared_text(alloc: Global, drawing: &Drawing) -> Result<Vec<u8>, AllocError>
    ensures { IfOk result (λ text. SaysShared drawing.now.session text.items) }
{
    let paths = drawing.session().shared_paths(alloc)?;
    let mut text = Vec::new(alloc);
    push_shared_lines(&mut text, &paths)?;
    push_ok(&mut text)?;
    Ok(text)
}

/// The text that reports how often lines cross.
pub(crate) fn crossings_text(alloc: Global, drawing: &Drawing) -> Result<Vec<u8>, AllocError>
    ensures { IfOk result (λ text. SaysCrossings drawing.now.session text.items) }
{
    let crossings = drawing.session().crossings(alloc)?;
    let mut text = Vec::new(alloc);
    push_crossings_line(&mut text, crossings)?;
    push_ok(&mut text)?;
    Ok(text)
}

/// The text that reports a verdict on a line.
fn verdict_text(
    alloc: Global,
    number: u32,
    verdict: Result<u64, Breach>,
) -> Result<Vec<u8>, AllocError>
    ensures { IfOk result (λ text. text.items ≡ finding_lines (verdict_of number verdict ∷ []) ++ ok_line) }
{
    let finding = EdgeFinding {
        edge: number,
        finding: Finding::Judged(verdict),
    };
    let mut text = Vec::new(alloc);
    push_finding_lines(&mut text, &[finding])?;
    push_ok(&mut text)?;
    Ok(text)
}

/// Reports the verdict on a line for a connector, or why there is none.
pub(crate) fn report_verdict(
    alloc: Global,
    drawing: &Drawing,
    number: u32,
    corners: &[Point],
) -> Said
    ensures { SaysVerdict number corners.now drawing.now.session (said_bytes result) ⊎ (said_bytes result ≡ no_memory_line) }
{
    match drawing.check(number, corners) {
        Ok(verdict) => Said::of(verdict_text(alloc, number, verdict)),
        Err(SceneFault::Memory) => Said::NoMemory,
        Err(fault) => refused(alloc, &Refusal::Command(SessionFault::Edit(fault))),
    }
}
