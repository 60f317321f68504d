//! What is said of the connectors that have no route.
ghost use Rattle.std.specs.Prelude.{◌≡◌, ◌++◌, IfOk, OnOk};
ghost use Rattle.live_replies.specs.Why.{SaysWhy, cause_text, unrouted_text, unrouted_texts};

use crate::line::{push_numbered, push_ok, push_with_id};
use route_causes::{Cause, End, Unrouted, all_unrouted};
use route_session::Session;
use std::alloc::{AllocError, Global};

/// Appends a cause, with the id of its box last.
fn push_cause(out: &mut Vec<u8>, cause: Cause) -> Result<(), AllocError>
    ensures { OnOk result (out.new.items ≡ out.old.items ++ cause_text cause) }
{
    match cause {
        Cause::ClosedEnd { end, node } => match end {
            End::Source => push_with_id(out, b" source ", node),
            End::Target => push_with_id(out, b" target ", node),
        },
        Cause::CoveredCheckpoint { place, node } => {
            push_numbered(out, b" checkpoint ", u64::from(place))?;
            push_with_id(out, b" ", node)
        }
        Cause::Apart => out.extend_from_slice(b" apart"),
    }
}

/// Appends the line that says why a connector has no route.
fn push_unrouted(out: &mut Vec<u8>, unrouted: Unrouted) -> Result<(), AllocError>
    ensures { OnOk result (out.new.items ≡ out.old.items ++ unrouted_text unrouted) }
{
    push_numbered(out, b"why ", u64::from(unrouted.edge))?;
    push_cause(out, unrouted.cause)?;
    out.push(b'\n')?;
    Ok(())
}

/// Appends the line of each connector.
fn push_all_unrouted(out: &mut Vec<u8>, list: &[Unrouted]) -> Result<(), AllocError>
    ensures { OnOk result (out.new.items ≡ out.old.items ++ unrouted_texts list.now) }
{
    for &unrouted in list {
        push_unrouted(out, unrouted)?;
    }
    Ok(())
}

/// The text that reports why connectors of the present scene have no route.
pub(crate) fn why_text(alloc: Global, session: &Session) -> Result<Vec<u8>, AllocError>
    ensures { IfOk result (λ text. SaysWhy session.now text.items) }
{
    let found = all_unrouted(alloc, session.scene(), session.book().answers())?;
    let mut text = Vec::new(alloc);
    push_all_unrouted(&mut text, &found)?;
    push_ok(&mut text)?;
    Ok(text)
}
