//! The answers of many tasks, by searches side by side or one after the other.
ghost use Rattle.std.specs.Prelude.{◌≡◌, ◌≤◌, All, IfOk, OnErr, OnOk, length};
ghost use Rattle.line_arena.specs.Count.{counted_by};
ghost use Rattle.par_route.specs.Pieces.{IsSearched};
ghost use Rattle.par_route.specs.Routes.{AreAnswers, HaveOneList, MayBeSearched};
ghost use Rattle.route_search.specs.Matching.{AreLinesOf};

use crate::gate::{Gate, OpenGate};
use crate::pieces::{Piece, Searched, cut, join, search};
use line_arena::LineArena;
use plane_geom::Solid;
use route_search::{Lines, Tally};
use std::alloc::{AllocError, Global};
use std::thread;
use std::thread::Threads;
use walk_model::{Route, Task};

/// The right answers of the tasks, in order, by at most `workers` searches side by side, which all
/// read these lines.
fn route_pieces<R: Threads + Sync, G: Gate>(
    rt: &R,
    alloc: Global,
    arena: &LineArena,
    solids: &[Solid],
    lines: &Lines,
    tasks: &[Task],
    workers: u32,
    gate: &G,
    tally: &mut Tally,
) -> Result<Vec<Option<Route>>, AllocError>
    requires some { 1 ≤ workers }
    requires few { workers ≤ 4 }
    requires tasks { All (MayBeSearched arena.now solids.now) tasks.now }
    requires lines { AreLinesOf arena.now solids.now lines.now }
    ensures answers { IfOk result (λ answers. AreAnswers solids.now tasks.now answers.items) }
    ensures tally { OnOk result (tally.new ≡ counted_by (length tasks.now) tally.old) }
    ensures err_tally { OnErr result (tally.new ≡ tally.old) }
{
    let pieces = cut(alloc, tasks, workers)?;
    let searched = thread::map_vec(
        rt,
        pieces,
        &|piece: Piece<Task>| -> Result<Searched, AllocError>
            requires tasks { All (MayBeSearched arena.now solids.now) piece.items.now }
            requires lines { AreLinesOf arena.now solids.now lines.now }
            ensures { IfOk result (IsSearched solids.entry.now piece.entry) }
        { search(piece, alloc, arena, solids, lines, gate) },
    )?;
    join(alloc, searched, tally)
}

/// The right answers of the tasks, in order, by at most `workers` searches side by side.
///
/// The tally rises by the number of tasks. The only error is out of memory, which leaves the tally
/// as it was.
pub fn route_all<R: Threads + Sync, G: Gate>(
    rt: &R,
    alloc: Global,
    arena: &LineArena,
    solids: &[Solid],
    tasks: &[Task],
    workers: u32,
    gate: &G,
    tally: &mut Tally,
) -> Result<Vec<Option<Route>>, AllocError>
    requires some { 1 ≤ workers }
    requires few { workers ≤ 4 }
    requires tasks { All (MayBeSearched arena.now solids.now) tasks.now }
    ensures answers { IfOk result (λ answers. AreAnswers solids.now tasks.now answers.items) }
    ensures tally { OnOk result (tally.new ≡ counted_by (length tasks.now) tally.old) }
    ensures err_tally { OnErr result (tally.new ≡ tally.old) }
{
    if tasks.is_empty() {
        // No search: the tally stays, since a count is at most 2^64 - 1.
        tally.bounded();
        return Ok(Vec::new(alloc));
    }
    let lines = Lines::new(alloc, arena, solids)?;
    route_pieces(
        rt, alloc, arena, solids, &lines, tasks, workers, gate, tally,
    )
}

/// The right answers of the tasks, in order, by searches one after the other, without threads.
///
/// The tally rises by the number of tasks. The only error is out of memory, which leaves the tally
/// as it was.
pub fn route_each(
    alloc: Global,
    arena: &LineArena,
    solids: &[Solid],
    tasks: &[Task],
    tally: &mut Tally,
) -> Result<Vec<Option<Route>>, AllocError>
    requires tasks { All (MayBeSearched arena.now solids.now) tasks.now }
    ensures answers { IfOk result (λ answers. AreAnswers solids.now tasks.now answers.items) }
    ensures tally { OnOk result (tally.new ≡ counted_by (length tasks.now) tally.old) }
    ensures err_tally { OnErr result (tally.new ≡ tally.old) }
{
    if tasks.is_empty() {
        // No search: the tally stays, since a count is at most 2^64 - 1.
        tally.bounded();
        return Ok(Vec::new(alloc));
    }
    let lines = Lines::new(alloc, arena, solids)?;
    let piece = Piece {
        number: 1,
        items: tasks,
    };
    let Searched {
        answers,
        tally: searches,
    } = search(piece, alloc, arena, solids, &lines, &OpenGate)?;
    tally.join(searches);
    Ok(answers)
}

/// The law that tasks have exactly one list of right answers, so that the result does not depend on
/// `workers`.
pub fn one_list()
    ensures { HaveOneList }
{}
