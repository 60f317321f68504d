//! Labels of boxes and connectors that edits added.
//!
//! They are written with the diagram, and no edit, undo or redo changes them.
ghost use Rattle.std.specs.Prelude.{◌≡◌, ◌≢◌, IsNone, IsSome};
ghost use Rattle.drawing.specs.Labelled.{GivesLabel};
ghost use Rattle.drawing.specs.declared.labels.Labelled.TheVariants as labelled;
ghost use Rattle.reroute_c.specs.Labels.{IsUnlabelled, label_fault};
ghost use Rattle.reroute_c.specs.Open.{IfOpen, IsRefusedClosed};

use crate::fault::Fault;
use crate::handle::Handle;
use drawing::{LabelFault, Labelled};
use std::alloc::Global;

/// Why a label is refused.
fn of_label(fault: LabelFault) -> Fault
    ensures fault { result ≡ label_fault fault }
    ensures refused { result.code ≢ 0 }
{
    match fault {
        LabelFault::Quote => Fault::syntax(),
        LabelFault::Memory => Fault::memory(),
    }
}

/// Gives a label in place of the one that there is. An empty one takes that away.
fn label(alloc: Global, handle: &mut Handle, what: Labelled, text: &[u8]) -> Fault
    ensures closed { IsNone handle.old.drawing → IsRefusedClosed result handle.new.drawing }
    ensures open { IsSome handle.old.drawing → IsSome handle.new.drawing }
    ensures label { result.code ≡ 0 → IfOpen handle.old.drawing handle.new.drawing (GivesLabel what text.now) }
    ensures fault { IsSome handle.old.drawing → result.code ≢ 0 → IsUnlabelled text.now result }
    ensures refused { result.code ≢ 0 → handle.new.drawing ≡ handle.old.drawing }
{
    let Some(mut drawing) = handle.take() else {
        return Fault::closed();
    };
    let answer = drawing.label(alloc, what, text);
    handle.put(drawing);
    match answer {
        Ok(()) => Fault::none(),
        Err(fault) => of_label(fault),
    }
}

/// Gives the box with the id a label in place of the one that it has. An empty one takes that away.
///
/// The fault is 1 exactly if the label has a `"`, otherwise 98 or 99; after it all is as before.
#[unsafe(no_mangle)]
pub extern "C" fn reroute_label_box(
    alloc: Global,
    handle: &mut Handle,
    id: i64,
    text: &[u8],
) -> Fault
    ensures closed { IsNone handle.old.drawing → IsRefusedClosed result handle.new.drawing }
    ensures open { IsSome handle.old.drawing → IsSome handle.new.drawing }
    ensures label { result.code ≡ 0 → IfOpen handle.old.drawing handle.new.drawing (GivesLabel (labelled.Node id) text.now) }
    ensures fault { IsSome handle.old.drawing → result.code ≢ 0 → IsUnlabelled text.now result }
    ensures refused { result.code ≢ 0 → handle.new.drawing ≡ handle.old.drawing }
{
    label(alloc, handle, Labelled::Node(id), text)
}

/// Gives the connector with the number a label, in the same way.
#[unsafe(no_mangle)]
pub extern "C" fn reroute_label_connector(
    alloc: Global,
    handle: &mut Handle,
    number: u32,
    text: &[u8],
) -> Fault
    ensures closed { IsNone handle.old.drawing → IsRefusedClosed result handle.new.drawing }
    ensures open { IsSome handle.old.drawing → IsSome handle.new.drawing }
    ensures label { result.code ≡ 0 → IfOpen handle.old.drawing handle.new.drawing (GivesLabel (labelled.Edge number) text.now) }
    ensures fault { IsSome handle.old.drawing → result.code ≢ 0 → IsUnlabelled text.now result }
    ensures refused { result.code ≢ 0 → handle.new.drawing ≡ handle.old.drawing }
{
    label(alloc, handle, Labelled::Edge(number), text)
}
