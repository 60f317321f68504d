//! The problem of a search: a task over an arena.
ghost use Rattle.std.specs.Prelude.{◌≡◌, ◌⊎◌, ◌+◌, ◌*◌, ◌^◌, ◌<◌, ◌≤◌, All, Any, IfOk, OnOk, length};
ghost use Rattle.move_model.specs.Problems.{IsProblem};
ghost use Rattle.plane_geom.specs.Point.{PointIsOnSheet};
ghost use Rattle.plane_geom.specs.declared.floor.Floor.{Floor};
ghost use Rattle.search_problem.specs.Bounds.{AreStages, bound_of, least_bound_from, most_cost, origin_at, origins_after, origins_at};
ghost use Rattle.search_problem.specs.Origins.{AreCovered, Covers, IsOrigin, IsSmallEntry};
ghost use Rattle.search_problem.specs.declared.ends.Entry.{Entry};
ghost use Rattle.search_problem.specs.Problems.{IsReady};
ghost use Rattle.search_problem.specs.Stubs.{AreSame};

use crate::ends::{Ending, Entry, endings, entries};
use crate::origin::{Origin, origin_of};
use crate::stubs::SortedSolids;
use line_arena::LineArena;
use move_model::{Ahead, Place};
use plane_geom::{Dir, Point, Rect, Solid};
use std::alloc::{AllocError, Global};
use walk_model::Task;

/// The directions, in order.
pub const DIRS: [Dir; 4] = [Dir::East, Dir::South, Dir::West, Dir::North];

/// What is ahead of the end of a walk.
pub const NOTHING: Ahead = Ahead {
    cost: 0,
    runs: 0,
    lean: 0,
};

/// No first walk costs more.
pub const MOST_COST: u64 = 300_000_000_000_000_000;

/// No first walk has more runs.
pub const MOST_RUNS: u32 = 3_289_602;

/// A task over an arena, and what a search reads from it repeatedly.
#[derive(Drop)]
pub struct Problem<'a> {
    pub arena: &'a LineArena,
    pub solids: &'a [Solid],
    pub task: &'a Task,
    pub entries: Vec<Entry>,
    pub endings: Vec<Ending>,
    /// Where walks begin, by the number of checkpoints that they have passed: at the ports, and later at the last
    /// checkpoint, in each heading.
    pub origins: Vec<Vec<Origin>>,
}

/// Appends the origin of the direction, if it has one.
fn push_origin(origins: &mut Vec<Origin>, entries: &[Entry], dir: Dir) -> Result<(), AllocError>
    requires entries { All IsSmallEntry entries.now }
    requires origins { All IsOrigin origins.old.items }
    ensures origins { OnOk result (All IsOrigin origins.new.items) }
    ensures covered { OnOk result (All (λ e. e.place.heading ≡ dir → Any (λ o. Covers o e) origins.new.items) entries.now) }
    ensures others { OnOk result ((e : Entry) → Any (λ o. Covers o e) origins.old.items → Any (λ o. Covers o e) origins.new.items) }
{
    if let Some(origin) = origin_of(entries, dir) {
        origins.push(origin)?;
    }
    Ok(())
}

/// The origins of the directions that have one.
fn all_origins(alloc: Global, entries: &[Entry]) -> Result<Vec<Origin>, AllocError>
    requires { All IsSmallEntry entries.now }
    ensures origins { IfOk result (λ v. All IsOrigin v.items) }
    ensures covered { IfOk result (λ v. AreCovered v.items entries.now) }
{
    let mut origins = Vec::new(alloc);
    push_origin(&mut origins, entries, Dir::East)?;
    push_origin(&mut origins, entries, Dir::South)?;
    push_origin(&mut origins, entries, Dir::West)?;
    push_origin(&mut origins, entries, Dir::North)?;
    Ok(origins)
}

/// A lower bound on the cost of reaching the point with the heading from one of the origins.
fn least_bound(origins: &[Origin], penalty: u64, to: Point, heading: Dir) -> u64
    requires origins { All IsOrigin origins.now }
    requires within { PointIsOnSheet to }
    requires penalty { penalty ≤ 10 ^ 9 }
    ensures exact { result ≡ least_bound_from penalty origins.now to heading }
    ensures small { result ≤ most_cost }
{
    let mut least = MOST_COST;
    for origin in origins {
        least = least.min(origin.bound(to, heading, penalty));
    }
    least
}

/// The origin of walks that leave the checkpoint at the point with the heading; those to it begin
/// at the origins `before`.
fn origin_at(before: &[Origin], penalty: u64, at: Point, heading: Dir) -> Origin
    requires origins { All IsOrigin before.now }
    requires within { PointIsOnSheet at }
    requires penalty { penalty ≤ 10 ^ 9 }
    ensures exact { result ≡ origin_at penalty before.now at heading }
    ensures origin { IsOrigin result }
{
    Origin {
        dir: heading,
        ports: Rect {
            left: at.x,
            top: at.y,
            right: at.x,
            bottom: at.y,
        },
        lead: least_bound(before, penalty, at, heading),
    }
}

/// The origins of walks that leave the checkpoint at the point, one for each heading; those to it
/// begin at the origins `before`.
fn origins_at(
    alloc: Global,
    before: &[Origin],
    penalty: u64,
    at: Point,
) -> Result<Vec<Origin>, AllocError>
    requires origins { All IsOrigin before.now }
    requires within { PointIsOnSheet at }
    requires penalty { penalty ≤ 10 ^ 9 }
    ensures exact { IfOk result (λ v. v.items ≡ origins_at penalty before.now at) }
    ensures origins { IfOk result (λ v. All IsOrigin v.items) }
{
    let east = origin_at(before, penalty, at, Dir::East);
    let south = origin_at(before, penalty, at, Dir::South);
    let west = origin_at(before, penalty, at, Dir::West);
    let north = origin_at(before, penalty, at, Dir::North);
    let origins = vec![in alloc; east, south, west, north]?;
    Ok(origins)
}

/// The origins of walks by the number of checkpoints that they have passed; `first` are those of
/// the entries.
fn all_stages(
    alloc: Global,
    first: Vec<Origin>,
    penalty: u64,
    via: &[Point],
) -> Result<Vec<Vec<Origin>>, AllocError>
    requires origins { All IsOrigin first.items }
    requires within { All PointIsOnSheet via.now }
    requires penalty { penalty ≤ 10 ^ 9 }
    ensures first { IfOk result (λ v. origins_after v.items 0 ≡ first.items) }
    ensures stages { IfOk result (λ v. AreStages penalty via.now v.items) }
    ensures all { IfOk result (λ v. length v.items ≡ length via.now + 1) }
{
    let mut stages = vec![in alloc; first]?;
    for &at in via {
        let next = origins_at(alloc, &stages[stages.len() - 1], penalty, at)?;
        stages.push(next)?;
    }
    Ok(stages)
}

impl<'a> Problem<'a> {
    /// The problem of the task over the arena of a floor with these solids, which are there sorted
    /// too. The only error is out of memory.
    pub fn new(
        alloc: Global,
        arena: &'a LineArena,
        solids: &'a [Solid],
        sorted: &SortedSolids,
        task: &'a Task,
    ) -> Result<Problem<'a>, AllocError>
        requires problem { (floor : Floor) × IsProblem floor arena.now solids.now task.now }
        requires sorted { AreSame solids.now sorted.now.solids.items }
        ensures ready { IfOk result IsReady }
        ensures solids { IfOk result (λ p. p.solids.now ≡ solids.now) }
        ensures arena { IfOk result (λ p. p.arena.now ≡ arena.now) }
        ensures task { IfOk result (λ p. p.task.now ≡ task.now) }
    {
        arena.laws();
        let entries = entries(alloc, arena, sorted, task)?;
        let endings = endings(alloc, arena, sorted, task)?;
        let first = all_origins(alloc, &entries)?;
        let origins = all_stages(alloc, first, task.penalty, task.via.as_slice())?;
        Ok(Problem {
            arena,
            solids,
            task,
            entries,
            endings,
            origins,
        })
    }

    /// Where walks begin that have passed that many checkpoints.
    pub fn origins_after(&self, stage: u32) -> &[Origin]
        requires ready { IsReady self.now }
        requires stage { stage ≤ length self.now.task.now.via }
        ensures exact { result.now ≡ origins_after self.now.origins.items stage }
        ensures origins { All IsOrigin result.now }
    {
        &self.origins[stage as usize]
    }

    /// A lower bound on the cost of reaching the place, which is at the point.
    pub fn bound(&self, place: &Place, at: Point) -> u64
        requires ready { IsReady self.now }
        requires within { PointIsOnSheet at }
        requires stage { place.now.stage ≤ length self.now.task.now.via }
        ensures exact { result ≡ bound_of self.now.origins.items self.now.task.now place.now.stage place.now.heading at }
        ensures small { result ≤ 4 * 10 ^ 17 }
    {
        let origins = self.origins_after(place.stage);
        least_bound(origins, self.task.penalty, at, place.heading)
    }
}
