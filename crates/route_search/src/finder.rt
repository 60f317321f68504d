//! Searches over one arena.
ghost use Rattle.std.specs.Prelude.{◌≡◌, ◌↔◌, ℕ, All, IfOk, IfSome, IsTrue};
ghost use Rattle.std.proofs.Props.{props};
ghost use Rattle.move_model.specs.Problems.{IsProblem};
ghost use Rattle.plane_geom.specs.declared.floor.Floor.{Floor};
ghost use Rattle.exit_rows.specs.Rows.{IsMarked};
ghost use Rattle.exit_spread.specs.Searching.{AreNone};
ghost use Rattle.route_search.specs.Matching.{AreLinesOf, made_lines};
ghost use Rattle.walk_model.specs.Answers.{IsAnswer};
ghost use Rattle.line_arena.specs.Arena.{StandsAt};
ghost use Rattle.line_arena.specs.Count.{counted_by};

use crate::follow::Follower;
use crate::lines::{FinderLines, Lines};
use crate::tally::Tally;
use exit_spread::Spread;
use line_arena::LineArena;
use plane_geom::{Point, Solid};
use search_problem::Problem;
use std::alloc::{AllocError, Global};
use walk_model::{Route, Task};

/// Searches over one arena, with what they keep between them.
#[derive(Drop)]
pub struct Finder<'a> {
    alloc: Global,
    pub arena: &'a LineArena,
    pub solids: &'a [Solid],
    // Made by the first search, unless they are lent.
    lines: FinderLines<'a>,
    spread: Spread,
    ghost idle: { AreNone spread } by { Prim.hlevel props },
    ghost made: { IfSome (made_lines lines) (AreLinesOf arena.now solids.now) } by { Prim.hlevel props },
}

/// Whether there is a crossing at each of the points.
fn are_crossings(arena: &LineArena, points: &[Point]) -> bool
    ensures { IsTrue result ↔ All (λ p. (c : ℕ) × StandsAt arena.now c p) points.now }
{
    for point in points {
        if arena.crossing_at(*point).is_none() {
            return false;
        }
    }
    true
}

/// The result of a search that begins without exits and may leave some.
fn search(
    alloc: Global,
    arena: &LineArena,
    solids: &[Solid],
    task: &Task,
    lines: &Lines,
    spread: &mut Spread,
) -> Result<Option<Route>, AllocError>
    requires problem { (floor : Floor) × IsProblem floor arena.now solids.now task.now }
    requires lines { AreLinesOf arena.now solids.now lines.now }
    requires none { AreNone spread.old }
    ensures answer { IfOk result (IsAnswer solids.now task.now) }
    ensures marked { IsMarked spread.new.rows }
{
    arena.laws();
    let via = task.via.as_slice();
    // No walk passes a point where no lines cross, and a search for one would go everywhere.
    if !are_crossings(arena, via) {
        return Ok(None);
    }
    let stages = via.len() + 1;
    spread.rows.fit(alloc, lines.lists.lines().len(), stages)?;
    let problem = Problem::new(alloc, arena, solids, &lines.sorted, task)?;
    spread.spread(&problem, &lines.lists, &lines.touches)?;
    let follower = Follower {
        problem: &problem,
        lists: &lines.lists,
        spread,
    };
    follower.route(alloc)
}

impl<'a> Finder<'a> {
    /// A finder for tasks over the arena of a floor with these solids. Takes no memory.
    pub fn new(alloc: Global, arena: &'a LineArena, solids: &'a [Solid]) -> Finder<'a>
        ensures arena { result.arena.now ≡ arena.now }
        ensures solids { result.solids.now ≡ solids.now }
    {
        Finder {
            alloc,
            arena,
            solids,
            lines: FinderLines::Unmade,
            spread: Spread::new(alloc),
        }
    }

    /// A finder for tasks over the arena of a floor with these solids, whose lines are lent to it.
    /// Takes no memory.
    pub fn with_lines(
        alloc: Global,
        arena: &'a LineArena,
        solids: &'a [Solid],
        lines: &'a Lines,
    ) -> Finder<'a>
        requires { AreLinesOf arena.now solids.now lines.now }
        ensures arena { result.arena.now ≡ arena.now }
        ensures solids { result.solids.now ≡ solids.now }
    {
        Finder {
            alloc,
            arena,
            solids,
            lines: FinderLines::Lent(lines),
            spread: Spread::new(alloc),
        }
    }

    /// The route of the task's first walk, or `None` exactly if no walk is legal.
    ///
    /// The tally rises by one, even when out of memory, which is the only error. The finder may be
    /// used again after it.
    pub fn find(&mut self, task: &Task, tally: &mut Tally) -> Result<Option<Route>, AllocError>
        requires { (floor : Floor) × IsProblem floor self.old.arena.now self.old.solids.now task.now }
        ensures answer { IfOk result (IsAnswer self.old.solids.now task.now) }
        ensures tally { tally.new ≡ counted_by 1 tally.old }
        ensures arena { self.new.arena.now ≡ self.old.arena.now }
        ensures solids { self.new.solids.now ≡ self.old.solids.now }
    {
        tally.rise();
        self.lines.make(self.alloc, self.arena, self.solids)?;
        let Some(lines) = self.lines.made() else {
            unreachable!()
        };
        let answer = search(
            self.alloc,
            self.arena,
            self.solids,
            task,
            lines,
            &mut self.spread,
        );
        self.spread.clear();
        answer
    }
}

/// The route of the task's first walk, or `None` exactly if no walk is legal.
///
/// The arena represents a floor with these solids, and the task's ports and checkpoints are anchors
/// of that floor. The tally rises by one, even when out of memory, which is the only error.
pub fn find_first(
    alloc: Global,
    arena: &LineArena,
    solids: &[Solid],
    task: &Task,
    tally: &mut Tally,
) -> Result<Option<Route>, AllocError>
    requires { (floor : Floor) × IsProblem floor arena.now solids.now task.now }
    ensures answer { IfOk result (IsAnswer solids.now task.now) }
    ensures tally { tally.new ≡ counted_by 1 tally.old }
{
    Finder::new(alloc, arena, solids).find(task, tally)
}
