//! The edits of an open transaction.
//!
//! Each is refused as the working scene refuses it; then no transaction is open any more.
ghost use Rattle.std.specs.Prelude.{◌≡◌, ◌≢◌, ◌<◌, ◌≤◌, ◌^◌, IfSome, IsNone, IsSome, false, true, unsigned_abs};
ghost use Rattle.reroute_c.specs.Codes.{IsFaultAnswered, syntax_fault};
ghost use Rattle.drawing.specs.Drawing.{next_edge};
ghost use Rattle.reroute_c.specs.Edits.{IsRolledBack, Reconnects, dirs_of, end_of, has_direction, long_id_fault};
ghost use Rattle.reroute_c.specs.Open.{IfOpen, IsRefusedClosed};
ghost use Rattle.scene_model.specs.Edits.{IsDirected};
ghost use Rattle.scene_model.specs.declared.edit.Command.TheVariants as commands;
ghost use Rattle.scene_model.specs.declared.edit.Edit.TheVariants as edits;
ghost use Rattle.scene_model.specs.declared.settings.Setting.TheVariants as settings;

use crate::calls::call;
use crate::fault::{Fault, numbered, of_call};
use crate::handle::Handle;
use drawing::End;
use scene_model::{Command, Dirs, Edit, Setting};
use std::alloc::Global;

/// The least id, without its sign, that no diagram has.
const LEAST_LONG_ID: u64 = 1_000_000_000_000_000_000;

/// The directions in which lines may leave a pin.
#[repr(C)]
#[derive(Drop)]
pub struct Directions {
    pub east: bool,
    pub south: bool,
    pub west: bool,
    pub north: bool,
}

/// Applies an edit to the working scene.
fn edit(handle: &mut Handle, edit: Edit) -> Fault
    requires { IsDirected edit }
    ensures closed { IsNone handle.old.drawing → IsRefusedClosed result handle.new.drawing }
    ensures open { IsSome handle.old.drawing → IsSome handle.new.drawing }
    ensures call { IfOpen handle.old.drawing handle.new.drawing (IsFaultAnswered (commands.Edit edit) result) }
{
    call(handle, &Command::Edit(edit))
}

/// Adds a box by its centre, and by its whole width and height.
///
/// An id has at most 18 digits, as in a diagram. If it has more, the fault is 9 with 2, and the transaction is dropped.
#[unsafe(no_mangle)]
pub extern "C" fn reroute_add_box(
    handle: &mut Handle,
    id: i64,
    x: i64,
    y: i64,
    w: i64,
    h: i64,
) -> Fault
    ensures closed { IsNone handle.old.drawing → IsRefusedClosed result handle.new.drawing }
    ensures open { IsSome handle.old.drawing → IsSome handle.new.drawing }
    ensures call { unsigned_abs id < 10 ^ 18 → IfOpen handle.old.drawing handle.new.drawing (IsFaultAnswered (commands.Edit (edits.AddNode id x y w h)) result) }
    ensures long { 10 ^ 18 ≤ unsigned_abs id → IfOpen handle.old.drawing handle.new.drawing (IsRolledBack long_id_fault result) }
{
    if LEAST_LONG_ID <= id.unsigned_abs() {
        return roll_back(handle, numbered(9, 2));
    }
    edit(handle, Edit::AddNode { id, x, y, w, h })
}

/// Moves a box's centre.
#[unsafe(no_mangle)]
pub extern "C" fn reroute_move_box(handle: &mut Handle, id: i64, x: i64, y: i64) -> Fault
    ensures closed { IsNone handle.old.drawing → IsRefusedClosed result handle.new.drawing }
    ensures open { IsSome handle.old.drawing → IsSome handle.new.drawing }
    ensures call { IfOpen handle.old.drawing handle.new.drawing (IsFaultAnswered (commands.Edit (edits.MoveNode id x y)) result) }
{
    edit(handle, Edit::MoveNode { id, x, y })
}

/// Changes a box's whole width and height, about its centre.
#[unsafe(no_mangle)]
pub extern "C" fn reroute_size_box(handle: &mut Handle, id: i64, w: i64, h: i64) -> Fault
    ensures closed { IsNone handle.old.drawing → IsRefusedClosed result handle.new.drawing }
    ensures open { IsSome handle.old.drawing → IsSome handle.new.drawing }
    ensures call { IfOpen handle.old.drawing handle.new.drawing (IsFaultAnswered (commands.Edit (edits.SizeNode id w h)) result) }
{
    edit(handle, Edit::SizeNode { id, w, h })
}

/// Removes a box on which no connector ends.
#[unsafe(no_mangle)]
pub extern "C" fn reroute_drop_box(handle: &mut Handle, id: i64) -> Fault
    ensures closed { IsNone handle.old.drawing → IsRefusedClosed result handle.new.drawing }
    ensures open { IsSome handle.old.drawing → IsSome handle.new.drawing }
    ensures call { IfOpen handle.old.drawing handle.new.drawing (IsFaultAnswered (commands.Edit (edits.DropNode id)) result) }
{
    edit(handle, Edit::DropNode { id })
}

/// Adds a pin of a class, from 1 to 65535, by its offset from the box's centre.
///
/// If it has no direction, the fault is 1, and the transaction is dropped.
#[unsafe(no_mangle)]
pub extern "C" fn reroute_add_pin(
    handle: &mut Handle,
    id: i64,
    class: u32,
    dx: i64,
    dy: i64,
    directions: Directions,
) -> Fault
    ensures closed { IsNone handle.old.drawing → IsRefusedClosed result handle.new.drawing }
    ensures open { IsSome handle.old.drawing → IsSome handle.new.drawing }
    ensures call { has_direction directions ≡ true → IfOpen handle.old.drawing handle.new.drawing (IsFaultAnswered (commands.Edit (edits.AddPin id class dx dy (dirs_of directions))) result) }
    ensures undirected { has_direction directions ≡ false → IfOpen handle.old.drawing handle.new.drawing (IsRolledBack syntax_fault result) }
{
    let Directions {
        east,
        south,
        west,
        north,
    } = directions;
    let dirs = Dirs {
        east,
        south,
        west,
        north,
    };
    if !(east || south || west || north) {
        return roll_back(handle, Fault::syntax());
    }
    edit(
        handle,
        Edit::AddPin {
            id,
            class,
            dx,
            dy,
            dirs,
        },
    )
}

/// Drops the transaction if one is open, since what was asked for is not valid for this reason.
fn roll_back(handle: &mut Handle, why: Fault) -> Fault
    ensures closed { IsNone handle.old.drawing → IsRefusedClosed result handle.new.drawing }
    ensures open { IsSome handle.old.drawing → IsSome handle.new.drawing }
    ensures rolled_back { IfOpen handle.old.drawing handle.new.drawing (IsRolledBack why result) }
{
    let Some(mut drawing) = handle.take() else {
        return Fault::closed();
    };
    drawing.roll_back();
    handle.put(drawing);
    why
}

/// Removes the pin at a place of a box, from 1.
#[unsafe(no_mangle)]
pub extern "C" fn reroute_drop_pin(handle: &mut Handle, id: i64, place: u32) -> Fault
    ensures closed { IsNone handle.old.drawing → IsRefusedClosed result handle.new.drawing }
    ensures open { IsSome handle.old.drawing → IsSome handle.new.drawing }
    ensures call { IfOpen handle.old.drawing handle.new.drawing (IsFaultAnswered (commands.Edit (edits.DropPin id place)) result) }
{
    edit(handle, Edit::DropPin { id, place })
}

/// Connects any pins of two classes of two boxes; class 0 is a box's centre.
///
/// `number` becomes that of the connector; after a refusal it is as before.
#[unsafe(no_mangle)]
pub extern "C" fn reroute_connect(
    handle: &mut Handle,
    from: i64,
    from_class: u32,
    to: i64,
    to_class: u32,
    number: &mut u32,
) -> Fault
    ensures closed { IsNone handle.old.drawing → IsRefusedClosed result handle.new.drawing }
    ensures open { IsSome handle.old.drawing → IsSome handle.new.drawing }
    ensures call { IfOpen handle.old.drawing handle.new.drawing (IsFaultAnswered (commands.Edit (edits.AddEdge from to from_class to_class)) result) }
    ensures number { result.code ≡ 0 → IfSome handle.old.drawing (λ s. number.new ≡ next_edge s.session.world) }
    ensures kept { result.code ≢ 0 → number.new ≡ number.old }
{
    let next = reroute_next(handle);
    let fault = edit(
        handle,
        Edit::AddEdge {
            from,
            to,
            from_class,
            to_class,
        },
    );
    if fault.code == 0 {
        *number = next;
    }
    fault
}

/// The number that the next connector gets, in the open transaction if one is open; 0 if no session is open.
#[unsafe(no_mangle)]
pub extern "C" fn reroute_next(handle: &mut Handle) -> u32
    ensures closed { IsNone handle.old.drawing → result ≡ 0 }
    ensures next { IfSome handle.old.drawing (λ s. result ≡ next_edge s.session.world) }
    ensures kept { handle.new.drawing ≡ handle.old.drawing }
{
    let Some(drawing) = handle.take() else {
        return 0;
    };
    let next = drawing.next_number();
    handle.put(drawing);
    next
}

/// The end where a connector begins, or its target.
fn end_of(target: bool) -> End
    ensures { result ≡ end_of target }
{
    if target { End::To } else { End::From }
}

/// Moves an end of a connector to another box, at a pin of a class: the one where it begins, or with `target` the one where
/// it ends.
///
/// The connector is cut, and a new one with its other end, that end's class and its checkpoints is added. `number` becomes
/// that of the new one; after a refusal, or 98 or 99, it is as before.
#[unsafe(no_mangle)]
pub extern "C" fn reroute_reconnect(
    alloc: Global,
    handle: &mut Handle,
    connector: u32,
    target: bool,
    id: i64,
    class: u32,
    number: &mut u32,
) -> Fault
    ensures closed { IsNone handle.old.drawing → IsRefusedClosed result handle.new.drawing }
    ensures open { IsSome handle.old.drawing → IsSome handle.new.drawing }
    ensures call { IfOpen handle.old.drawing handle.new.drawing (Reconnects connector (end_of target) id class result) }
    ensures number { result.code ≡ 0 → IfSome handle.old.drawing (λ s. number.new ≡ next_edge s.session.world) }
    ensures kept { result.code ≢ 0 → number.new ≡ number.old }
{
    let Some(mut drawing) = handle.take() else {
        return Fault::closed();
    };
    let answer = drawing.reconnect(alloc, connector, end_of(target), id, class);
    handle.put(drawing);
    match answer {
        Ok(next) => {
            *number = next;
            Fault::none()
        }
        Err(fault) => of_call(fault),
    }
}

/// Removes a connector.
#[unsafe(no_mangle)]
pub extern "C" fn reroute_cut(handle: &mut Handle, number: u32) -> Fault
    ensures closed { IsNone handle.old.drawing → IsRefusedClosed result handle.new.drawing }
    ensures open { IsSome handle.old.drawing → IsSome handle.new.drawing }
    ensures call { IfOpen handle.old.drawing handle.new.drawing (IsFaultAnswered (commands.Edit (edits.CutEdge number)) result) }
{
    edit(handle, Edit::CutEdge { number })
}

/// Changes the classes of the pins of a connector.
#[unsafe(no_mangle)]
pub extern "C" fn reroute_set_classes(
    handle: &mut Handle,
    number: u32,
    from_class: u32,
    to_class: u32,
) -> Fault
    ensures closed { IsNone handle.old.drawing → IsRefusedClosed result handle.new.drawing }
    ensures open { IsSome handle.old.drawing → IsSome handle.new.drawing }
    ensures call { IfOpen handle.old.drawing handle.new.drawing (IsFaultAnswered (commands.Edit (edits.SetClasses number from_class to_class)) result) }
{
    edit(
        handle,
        Edit::SetClasses {
            number,
            from_class,
            to_class,
        },
    )
}

/// Adds a checkpoint before the one at the place now, from 1.
#[unsafe(no_mangle)]
pub extern "C" fn reroute_add_checkpoint(
    handle: &mut Handle,
    number: u32,
    place: u32,
    x: i64,
    y: i64,
) -> Fault
    ensures closed { IsNone handle.old.drawing → IsRefusedClosed result handle.new.drawing }
    ensures open { IsSome handle.old.drawing → IsSome handle.new.drawing }
    ensures call { IfOpen handle.old.drawing handle.new.drawing (IsFaultAnswered (commands.Edit (edits.AddVia number place x y)) result) }
{
    edit(
        handle,
        Edit::AddVia {
            number,
            place,
            x,
            y,
        },
    )
}

/// Removes the checkpoint at a place, from 1.
#[unsafe(no_mangle)]
pub extern "C" fn reroute_drop_checkpoint(handle: &mut Handle, number: u32, place: u32) -> Fault
    ensures closed { IsNone handle.old.drawing → IsRefusedClosed result handle.new.drawing }
    ensures open { IsSome handle.old.drawing → IsSome handle.new.drawing }
    ensures call { IfOpen handle.old.drawing handle.new.drawing (IsFaultAnswered (commands.Edit (edits.DropVia number place)) result) }
{
    edit(handle, Edit::DropVia { number, place })
}

/// Sets what a bend costs, as a length: from 1 to 10^9.
#[unsafe(no_mangle)]
pub extern "C" fn reroute_set_penalty(handle: &mut Handle, value: i64) -> Fault
    ensures closed { IsNone handle.old.drawing → IsRefusedClosed result handle.new.drawing }
    ensures open { IsSome handle.old.drawing → IsSome handle.new.drawing }
    ensures call { IfOpen handle.old.drawing handle.new.drawing (IsFaultAnswered (commands.Edit (edits.Set settings.Penalty value)) result) }
{
    edit(
        handle,
        Edit::Set {
            what: Setting::Penalty,
            value,
        },
    )
}

/// Sets how far lines keep from boxes: from 1 to 10^6.
#[unsafe(no_mangle)]
pub extern "C" fn reroute_set_buffer(handle: &mut Handle, value: i64) -> Fault
    ensures closed { IsNone handle.old.drawing → IsRefusedClosed result handle.new.drawing }
    ensures open { IsSome handle.old.drawing → IsSome handle.new.drawing }
    ensures call { IfOpen handle.old.drawing handle.new.drawing (IsFaultAnswered (commands.Edit (edits.Set settings.Buffer value)) result) }
{
    edit(
        handle,
        Edit::Set {
            what: Setting::Buffer,
            value,
        },
    )
}

/// Sets how far lines side by side are kept apart where there is room: from 0 to 10^6.
#[unsafe(no_mangle)]
pub extern "C" fn reroute_set_nudge(handle: &mut Handle, value: i64) -> Fault
    ensures closed { IsNone handle.old.drawing → IsRefusedClosed result handle.new.drawing }
    ensures open { IsSome handle.old.drawing → IsSome handle.new.drawing }
    ensures call { IfOpen handle.old.drawing handle.new.drawing (IsFaultAnswered (commands.Edit (edits.Set settings.Nudge value)) result) }
{
    edit(
        handle,
        Edit::Set {
            what: Setting::Nudge,
            value,
        },
    )
}
