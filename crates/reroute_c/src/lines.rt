//! The lines: of the present scene or of a preview, their corners, their costs, which changed, and which are gone.
ghost use Rattle.std.specs.Prelude.{◌≡◌, ◌≢◌, IfSome, IsNone, IsSome, false, length};
ghost use Rattle.drawing.specs.Drawing.{Previews, Reports, cost_of};
ghost use Rattle.reroute_c.specs.Codes.{memory_fault};
ghost use Rattle.reroute_c.specs.Lines.{IsCost, IsUnpreviewed, IsCornerWritten, corner_at, gone_at, line_at, no_line};
ghost use Rattle.reroute_c.specs.Open.{IfOpen, IsRefusedClosed};
ghost use Rattle.scene_model.specs.Stale.{answer_of};

use crate::fault::Fault;
use crate::handle::Handle;
use drawing::Drawing;
use std::alloc::{AllocError, Global};

/// A corner of a line.
#[repr(C)]
#[derive(Drop)]
pub struct Corner {
    pub x: i64,
    pub y: i64,
}

/// A line: the number of its connector, 0 if there is no line; how many corners it has; and whether it differs from the
/// line that was reported of the connector before, if one was.
#[repr(C)]
#[derive(Drop)]
pub struct Line {
    pub connector: u32,
    pub corners: usize,
    pub changed: bool,
}

/// Nudges the lines of the present scene, and says how many there are. These are the lines that are reported from now on.
///
/// They can be read until lines are asked for again. After a fault, which is 99 or 98, all is as before.
#[unsafe(no_mangle)]
pub extern "C" fn reroute_lines(alloc: Global, handle: &mut Handle, count: &mut usize) -> Fault
    ensures closed { IsNone handle.old.drawing → IsRefusedClosed result handle.new.drawing }
    ensures open { IsSome handle.old.drawing → IsSome handle.new.drawing }
    ensures session { IfOpen handle.old.drawing handle.new.drawing (λ s n. n.session ≡ s.session) }
    ensures document { IfOpen handle.old.drawing handle.new.drawing (λ s n. n.document ≡ s.document) }
    ensures labels { IfOpen handle.old.drawing handle.new.drawing (λ s n. n.labels ≡ s.labels) }
    ensures reports { result.code ≡ 0 → IfOpen handle.old.drawing handle.new.drawing Reports }
    ensures count { result.code ≡ 0 → IfSome handle.new.drawing (λ n. count.new ≡ length n.asked.lines) }
    ensures refused { result.code ≢ 0 → handle.new.drawing ≡ handle.old.drawing }
    ensures kept { result.code ≢ 0 → count.new ≡ count.old }
    ensures memory { IsSome handle.old.drawing → result.code ≢ 0 → result ≡ memory_fault }
{
    let Some(mut drawing) = handle.take() else {
        return Fault::closed();
    };
    let answer = drawing.report_lines(alloc);
    let there = drawing.lines().len();
    handle.put(drawing);
    match answer {
        Ok(()) => {
            *count = there;
            Fault::none()
        }
        Err(AllocError) => Fault::memory(),
    }
}

/// Nudges the lines that a commit of the open transaction would give, and says how many there are. They are compared with
/// the lines that were reported last, which stay.
///
/// They can be read as those of `reroute_lines`, and the transaction stays open. The fault is 2 exactly if none is open;
/// after a fault all is as before.
#[unsafe(no_mangle)]
pub extern "C" fn reroute_preview(alloc: Global, handle: &mut Handle, count: &mut usize) -> Fault
    ensures closed { IsNone handle.old.drawing → IsRefusedClosed result handle.new.drawing }
    ensures open { IsSome handle.old.drawing → IsSome handle.new.drawing }
    ensures session { IfOpen handle.old.drawing handle.new.drawing (λ s n. n.session ≡ s.session) }
    ensures document { IfOpen handle.old.drawing handle.new.drawing (λ s n. n.document ≡ s.document) }
    ensures labels { IfOpen handle.old.drawing handle.new.drawing (λ s n. n.labels ≡ s.labels) }
    ensures previews { result.code ≡ 0 → IfOpen handle.old.drawing handle.new.drawing Previews }
    ensures count { result.code ≡ 0 → IfSome handle.new.drawing (λ n. count.new ≡ length n.asked.lines) }
    ensures fault { result.code ≢ 0 → IfSome handle.old.drawing (λ s. IsUnpreviewed s.session result) }
    ensures refused { result.code ≢ 0 → handle.new.drawing ≡ handle.old.drawing }
    ensures kept { result.code ≢ 0 → count.new ≡ count.old }
{
    let Some(mut drawing) = handle.take() else {
        return Fault::closed();
    };
    let answer = drawing.preview_lines(alloc);
    if answer.is_ok() {
        *count = drawing.lines().len();
    }
    handle.put(drawing);
    Fault::of(answer)
}

/// No line.
fn no_line() -> Line
    ensures { result ≡ no_line }
{
    Line {
        connector: 0,
        corners: 0,
        changed: false,
    }
}

/// The line at the place, from 0, of those that were asked for last.
fn line_of(drawing: &Drawing, place: usize) -> Line
    ensures { result ≡ line_at drawing.now place }
{
    let changed = drawing.changed().get(place).copied().unwrap_or(false);
    match drawing.lines().get(place) {
        Some(line) => Line {
            connector: line.edge,
            corners: line.points.as_slice().len(),
            changed,
        },
        None => no_line(),
    }
}

/// The line at the place, from 0, of those that were asked for last.
#[unsafe(no_mangle)]
pub extern "C" fn reroute_line(handle: &mut Handle, place: usize) -> Line
    ensures closed { IsNone handle.old.drawing → result ≡ no_line }
    ensures line { IfSome handle.old.drawing (λ s. result ≡ line_at s place) }
    ensures kept { handle.new.drawing ≡ handle.old.drawing }
{
    let Some(drawing) = handle.take() else {
        return no_line();
    };
    let line = line_of(&drawing, place);
    handle.put(drawing);
    line
}

/// How many connectors have no line among those that were asked for last, of those of which a line was reported before; 0
/// if no session is open.
#[unsafe(no_mangle)]
pub extern "C" fn reroute_gone_count(handle: &mut Handle) -> usize
    ensures closed { IsNone handle.old.drawing → result ≡ 0 }
    ensures count { IfSome handle.old.drawing (λ s. result ≡ length s.asked.gone) }
    ensures kept { handle.new.drawing ≡ handle.old.drawing }
{
    let Some(drawing) = handle.take() else {
        return 0;
    };
    let count = drawing.gone().len();
    handle.put(drawing);
    count
}

/// The number of such a connector, at a place from 0; 0 if there is none, or no session is open.
#[unsafe(no_mangle)]
pub extern "C" fn reroute_gone(handle: &mut Handle, place: usize) -> u32
    ensures closed { IsNone handle.old.drawing → result ≡ 0 }
    ensures gone { IfSome handle.old.drawing (λ s. result ≡ gone_at s place) }
    ensures kept { handle.new.drawing ≡ handle.old.drawing }
{
    let Some(drawing) = handle.take() else {
        return 0;
    };
    let number = drawing.gone().get(place).copied().unwrap_or(0);
    handle.put(drawing);
    number
}

/// Writes a corner of a line, if there is one.
fn write_corner(drawing: &Drawing, place: usize, at: usize, corner: &mut Corner) -> bool
    ensures { IsCornerWritten (corner_at drawing.now place at) result corner.old corner.new }
{
    let Some(line) = drawing.lines().get(place) else {
        return false;
    };
    let Some(point) = line.points.as_slice().get(at) else {
        return false;
    };
    corner.x = point.x;
    corner.y = point.y;
    true
}

/// Writes the corner at a place, from 0, of the line at a place, from 0; whether there is one.
#[unsafe(no_mangle)]
pub extern "C" fn reroute_corner(
    handle: &mut Handle,
    place: usize,
    at: usize,
    corner: &mut Corner,
) -> bool
    ensures closed { IsNone handle.old.drawing → result ≡ false }
    ensures closed_kept { IsNone handle.old.drawing → corner.new ≡ corner.old }
    ensures corner { IfSome handle.old.drawing (λ s. IsCornerWritten (corner_at s place at) result corner.old corner.new) }
    ensures kept { handle.new.drawing ≡ handle.old.drawing }
{
    let Some(drawing) = handle.take() else {
        return false;
    };
    let there = write_corner(&drawing, place, at, corner);
    handle.put(drawing);
    there
}

/// Writes the cost of a connector's route, if it has one.
fn write_cost(drawing: &Drawing, connector: u32, cost: &mut u64) -> bool
    ensures { IsCost (cost_of (answer_of drawing.now.session.book connector)) result cost.old cost.new }
{
    let Some(found) = drawing.cost(connector) else {
        return false;
    };
    *cost = found;
    true
}

/// Writes what a connector's route costs before nudging, length and bends; whether it has one.
#[unsafe(no_mangle)]
pub extern "C" fn reroute_cost(handle: &mut Handle, connector: u32, cost: &mut u64) -> bool
    ensures closed { IsNone handle.old.drawing → result ≡ false }
    ensures closed_kept { IsNone handle.old.drawing → cost.new ≡ cost.old }
    ensures cost { IfSome handle.old.drawing (λ s. IsCost (cost_of (answer_of s.session.book connector)) result cost.old cost.new) }
    ensures kept { handle.new.drawing ≡ handle.old.drawing }
{
    let Some(drawing) = handle.take() else {
        return false;
    };
    let there = write_cost(&drawing, connector, cost);
    handle.put(drawing);
    there
}

/// The number of searches; 0 if no session is open.
#[unsafe(no_mangle)]
pub extern "C" fn reroute_searched(handle: &mut Handle) -> u64
    ensures closed { IsNone handle.old.drawing → result ≡ 0 }
    ensures searched { IfSome handle.old.drawing (λ s. result ≡ s.session.searched) }
    ensures kept { handle.new.drawing ≡ handle.old.drawing }
{
    let Some(drawing) = handle.take() else {
        return 0;
    };
    let searched = drawing.session().searched();
    handle.put(drawing);
    searched
}
