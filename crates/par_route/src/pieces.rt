//! Lists cut into pieces, one for each thread, and the search of a piece of tasks.
ghost use Rattle.std.specs.Prelude.{◌≡◌, ◌<◌, ◌≤◌, All, IfOk, OnErr, OnOk, IsOk, length, min};
ghost use Rattle.std.specs.List.{flat_map, sum_by};
ghost use Rattle.line_arena.specs.Count.{counted_by};
ghost use Rattle.par_route.specs.Pieces.{AreCut, IsSearched, answers_in, piece_length, searches_in};
ghost use Rattle.par_route.specs.Routes.{MayBeSearched};
ghost use Rattle.route_search.specs.Matching.{AreLinesOf};

use crate::gate::Gate;
use crate::passed::Passed;
use line_arena::LineArena;
use plane_geom::Solid;
use route_search::{Finder, Lines, Tally};
use std::alloc::{AllocError, Global};
use walk_model::{Route, Task};

/// Consecutive items of a list, with the number of their piece, from 1.
#[derive(Drop)]
pub struct Piece<'a, T> {
    pub number: u32,
    pub items: &'a [T],
}

/// The answers of a piece, and the number of its searches.
#[derive(Drop)]
pub(crate) struct Searched {
    pub answers: Vec<Option<Route>>,
    pub tally: Tally,
}

/// The number of items in the piece after the first `before` of `count` pieces, where there are
/// `items` items in all.
fn piece_len(items: usize, count: usize, before: usize) -> usize
    requires { before < count }
    ensures { result ≡ piece_length items count before }
{
    let longer = before < items % count;
    items / count + usize::from(longer)
}

/// The items, cut in order into `workers` pieces, or one piece for each item if there are fewer
/// items. Longer pieces come first, by at most one item. The only error is out of memory.
pub fn cut<'a, T>(
    alloc: Global,
    items: &'a [T],
    workers: u32,
) -> Result<Vec<Piece<'a, T>>, AllocError>
    requires { 1 ≤ workers }
    ensures { IfOk result (λ pieces. AreCut items.entry.now (min workers (length items.entry.now)) pieces.items) }
{
    let count = items.len().min(workers as usize);
    let mut pieces = Vec::new(alloc);
    let mut rest = items;
    for before in 0..count {
        let (mine, others) = rest.split_at(piece_len(items.len(), count, before));
        pieces.push(Piece {
            number: before as u32 + 1,
            items: mine,
        })?;
        rest = others;
    }
    Ok(pieces)
}

/// Searches for each task of the piece, after the gate has let it pass.
pub(crate) fn search<G: Gate>(
    piece: Piece<'_, Task>,
    alloc: Global,
    arena: &LineArena,
    solids: &[Solid],
    lines: &Lines,
    gate: &G,
) -> Result<Searched, AllocError>
    requires tasks { All (MayBeSearched arena.now solids.now) piece.items.now }
    requires lines { AreLinesOf arena.now solids.now lines.now }
    ensures { IfOk result (IsSearched solids.now piece.entry) }
{
    let passed = Passed::through(gate, piece.number);
    search_passed(piece, passed, alloc, arena, solids, lines)
}

/// Searches for each task of the piece, which has passed the gate.
fn search_passed(
    piece: Piece<'_, Task>,
    _passed: Passed,
    alloc: Global,
    arena: &LineArena,
    solids: &[Solid],
    lines: &Lines,
) -> Result<Searched, AllocError>
    requires tasks { All (MayBeSearched arena.now solids.now) piece.items.now }
    requires lines { AreLinesOf arena.now solids.now lines.now }
    ensures { IfOk result (IsSearched solids.now piece.entry) }
{
    let tasks = piece.items;
    let mut tally = Tally::new();
    let mut finder = Finder::with_lines(alloc, arena, solids, lines);
    let mut answers = Vec::new(alloc);
    for task in tasks {
        answers.push(finder.find(task, &mut tally)?)?;
    }
    Ok(Searched { answers, tally })
}

/// The answers of all pieces, in order; all their tallies are joined to this one.
pub(crate) fn join(
    alloc: Global,
    pieces: Vec<Result<Searched, AllocError>>,
    tally: &mut Tally,
) -> Result<Vec<Option<Route>>, AllocError>
    ensures memory { OnOk result (All (λ p. IsOk p) pieces.items) }
    ensures answers { IfOk result (λ answers. answers.items ≡ flat_map answers_in pieces.items) }
    ensures tally { OnOk result (tally.new ≡ counted_by (counted_by (sum_by searches_in pieces.items) 0) tally.old) }
    ensures err_tally { OnErr result (tally.new ≡ tally.old) }
{
    let mut all = Vec::new(alloc);
    let mut searches = tally.split();
    for piece in pieces {
        let Searched {
            mut answers,
            tally: part,
        } = piece?;
        searches.join(part);
        all.append(&mut answers)?;
    }
    tally.join(searches);
    Ok(all)
}
