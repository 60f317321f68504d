//! Where walks enter and leave the lines of an arena.
ghost use Rattle.std.specs.Prelude.{◌≡◌, ◌≢◌, ◌+◌, ◌↔◌, ℕ, Some, All, IfOk, IfSome, IsNone, IsTrue, OnOk, length, slice_get};
ghost use Rattle.line_arena.specs.Arena.{StandsAt};
ghost use Rattle.move_model.specs.Places.{HasFreeStub, IsEntry};
ghost use Rattle.move_model.specs.declared.place.Place.{Place};
ghost use Rattle.search_problem.specs.Ends.{AreEndings, AreEntries, IsEndingOf, IsEntryOf};
ghost use Rattle.walk_model.specs.Choice.{IsChoice};
ghost use Rattle.walk_model.specs.Legal.{IsTask};

use crate::stage::stage_at;
use crate::stubs::SortedSolids;
use line_arena::{CrossId, LineArena};
use move_model::Place;
use plane_geom::{Dir, Point};
use std::alloc::{AllocError, Global};
use walk_model::{Choice, Task};

/// A start choice with a free stub: where a walk enters the lines, and what it has cost up to
/// there.
#[derive(Clone, Copy, Debug)]
pub struct Entry {
    pub choice: u32,
    pub port: Point,
    pub place: Place,
    /// The length of the stub, and the connection cost.
    pub lead: u64,
}

/// An end choice with a free stub: where a walk leaves the lines, and what it costs from there.
#[derive(Clone, Copy, Debug)]
pub struct Ending {
    pub choice: u32,
    pub port: Point,
    pub crossing: CrossId,
    /// The direction from the port to the pin.
    pub dir: Dir,
    pub stub: u64,
    /// The length of the stub, and the connection cost.
    pub rest: u64,
}

/// The entry of the choice, if its stub is free and its port is a crossing.
fn entry_of(
    arena: &LineArena,
    sorted: &SortedSolids,
    task: &Task,
    number: u32,
    start: Choice,
) -> Option<Entry>
    requires task { IsTask task.now }
    requires choice { IsChoice start }
    requires number { slice_get task.now.starts number ≡ Some start }
    ensures number { IfSome result (λ e. e.choice ≡ number) }
    ensures entry { IfSome result (λ e. IsEntryOf sorted.now.solids.items arena.now task.now start e) }
    ensures none { IsNone result → (x : Place) → IsEntry sorted.now.solids.items arena.now task.now.via start x → ⊥ }
{
    if !sorted.has_free_stub(&start) {
        return None;
    }
    let crossing = arena.crossing_at(start.port)?;
    Some(Entry {
        choice: number,
        port: start.port,
        place: Place {
            crossing,
            stage: stage_at(task.via.as_slice(), 0, start.port),
            heading: start.dir,
        },
        lead: start.pin.distance(start.port) + start.cost,
    })
}

/// The ending of the choice, if its stub is free and its port is a crossing.
fn ending_of(
    arena: &LineArena,
    sorted: &SortedSolids,
    task: &Task,
    number: u32,
    end: Choice,
) -> Option<Ending>
    requires choice { IsChoice end }
    requires number { slice_get task.now.ends number ≡ Some end }
    ensures number { IfSome result (λ e. e.choice ≡ number) }
    ensures ending { IfSome result (λ e. IsEndingOf sorted.now.solids.items arena.now task.now end e) }
    ensures none { IsNone result → HasFreeStub sorted.now.solids.items end → (c : ℕ) → StandsAt arena.now c end.port → ⊥ }
{
    if !sorted.has_free_stub(&end) {
        return None;
    }
    let crossing = arena.crossing_at(end.port)?;
    let stub = end.pin.distance(end.port);
    Some(Ending {
        choice: number,
        port: end.port,
        crossing,
        dir: end.dir.opposite(),
        stub,
        rest: stub + end.cost,
    })
}

/// Appends the entry of the next start choice, if it has one.
fn push_entry(
    entries: &mut Vec<Entry>,
    arena: &LineArena,
    sorted: &SortedSolids,
    task: &Task,
    number: u32,
    start: Choice,
) -> Result<(), AllocError>
    requires task { IsTask task.now }
    requires choice { IsChoice start }
    requires number { slice_get task.now.starts number ≡ Some start }
    requires entries { AreEntries sorted.now.solids.items arena.now task.now number entries.old.items }
    ensures { OnOk result (AreEntries sorted.now.solids.items arena.now task.now (number + 1) entries.new.items) }
{
    if let Some(entry) = entry_of(arena, sorted, task, number, start) {
        entries.push(entry)?;
    }
    Ok(())
}

/// Appends the ending of the next end choice, if it has one.
fn push_ending(
    endings: &mut Vec<Ending>,
    arena: &LineArena,
    sorted: &SortedSolids,
    task: &Task,
    number: u32,
    end: Choice,
) -> Result<(), AllocError>
    requires choice { IsChoice end }
    requires number { slice_get task.now.ends number ≡ Some end }
    requires endings { AreEndings sorted.now.solids.items arena.now task.now number endings.old.items }
    ensures { OnOk result (AreEndings sorted.now.solids.items arena.now task.now (number + 1) endings.new.items) }
{
    if let Some(ending) = ending_of(arena, sorted, task, number, end) {
        endings.push(ending)?;
    }
    Ok(())
}

/// The entries of all start choices that have one, in order.
pub fn entries(
    alloc: Global,
    arena: &LineArena,
    sorted: &SortedSolids,
    task: &Task,
) -> Result<Vec<Entry>, AllocError>
    requires task { IsTask task.now }
    ensures { IfOk result (λ v. AreEntries sorted.now.solids.items arena.now task.now (length task.now.starts) v.items) }
{
    let mut entries = Vec::new(alloc);
    for (number, &start) in task.starts.as_slice().iter().enumerate() {
        push_entry(&mut entries, arena, sorted, task, number as u32, start)?;
    }
    Ok(entries)
}

/// The endings of all end choices that have one, in order.
pub fn endings(
    alloc: Global,
    arena: &LineArena,
    sorted: &SortedSolids,
    task: &Task,
) -> Result<Vec<Ending>, AllocError>
    requires task { IsTask task.now }
    ensures { IfOk result (λ v. AreEndings sorted.now.solids.items arena.now task.now (length task.now.ends) v.items) }
{
    let mut endings = Vec::new(alloc);
    for (number, &end) in task.ends.as_slice().iter().enumerate() {
        push_ending(&mut endings, arena, sorted, task, number as u32, end)?;
    }
    Ok(endings)
}
