//! A connector that is moved to another box, and the reply.
ghost use Rattle.live_replies.specs.Reconnect.{AnswersReconnect, ReportsUnmoved};
ghost use Rattle.live_replies.specs.Said.{said_bytes};

use crate::reply::{Said, refused};
use crate::text::connector_text;
use drawing::{Drawing, End};
use report_text::Refusal;
use scene_model::SessionFault;
use std::alloc::{AllocError, Global};

/// Reports why a connector is not moved.
fn report_unmoved(alloc: Global, fault: SessionFault) -> Said
    ensures { ReportsUnmoved fault (said_bytes result) }
{
    match fault {
        SessionFault::Memory => Said::NoMemory,
        _ => refused(alloc, &Refusal::Command(fault)),
    }
}

/// Moves an end of a connector to another box, and reports the number of the new connector.
///
/// The text is made first, so that a connector that is moved is always reported.
pub(crate) fn report_reconnect(
    alloc: Global,
    drawing: &mut Drawing,
    number: u32,
    end: End,
    id: i64,
    class: u32,
) -> Said
    ensures { AnswersReconnect number end id class drawing.old drawing.new (said_bytes result) }
{
    let Ok(text) = connector_text(alloc, drawing.next_number()) else {
        drawing.roll_back();
        return Said::NoMemory;
    };
    match drawing.reconnect(alloc, number, end, id, class) {
        Ok(_) => Said::Text(text),
        Err(fault) => report_unmoved(alloc, fault),
    }
}
