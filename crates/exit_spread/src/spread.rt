//! Spreads exits backwards from the endings, the lowest bound first.
ghost use Rattle.std.specs.Prelude.{◌≡◌, ◌+◌, ◌*◌, ◌<◌, ◌≤◌, ℕ, None, Some, Option, All, Contains, OnErr, OnOk, length};
ghost use Rattle.line_arena.specs.Arena.{StandsAt};
ghost use Rattle.line_lists.specs.Lists.{AreListsOf, number_of};
ghost use Rattle.move_model.specs.Ahead.{nothing, with_stretch};
ghost use Rattle.move_model.specs.Places.{ComesTo};
ghost use Rattle.plane_geom.specs.Along.{way_of};
ghost use Rattle.plane_geom.specs.declared.point.Point.{Point as PointOf};
ghost use Rattle.plane_geom.specs.declared.point.Way.{Way};
ghost use Rattle.search_problem.specs.Bounds.{most_cost};
ghost use Rattle.side_touches.specs.Touches.{AreTouches};
ghost use Rattle.search_problem.specs.Problems.{IsReady};
ghost use Rattle.exit_rows.specs.Exits.{IsLate};
ghost use Rattle.exit_rows.specs.Rows.{IsMarked, SameRooms, kept_in};
ghost use Rattle.exit_spread.specs.Propagating.{Adds, AreOf, IsOfferable, IsSound};
ghost use Rattle.exit_spread.specs.Offers.{IsOffered, IsTaken, exit_of, kept_of};
ghost use Rattle.exit_spread.specs.Searching.{AreNone, HasRooms, IsSearching, IsSettled, IsSpread, IsStubOffered, weight};
ghost use Rattle.exit_spread.specs.Taking.{Grows, IsExit};
ghost use Rattle.exit_spread.specs.Ways.{IsWayAhead, place_at};

use crate::limit::{least_cost, raised};
use crate::run::{Run, counts_from};
use exit_rows::{Exit, Kept, Rows};
use line_lists::LineLists;
use move_model::{Place, Stretch};
use plane_geom::{Dir, Point};
use search_problem::{Candidate, Ending, MOST_COST, MOST_RUNS, NOTHING, Problem, Queue, stage_at};
use side_touches::{Touches, reach};
use std::alloc::{AllocError, Global};

/// What a search keeps: the exits that lines keep, those that are still to be taken, and the cost
/// of the best walk that was found.
///
/// Between two searches there is no exit.
#[derive(Drop)]
pub struct Spread {
    pub rows: Rows,
    pub queue: Queue<Exit>,
    /// The cost of the best walk that was found, or the limit.
    pub best: u64,
    /// Only walks that cost no more are looked for.
    pub limit: u64,
}

impl Spread {
    /// A spread without exits. Takes no memory.
    pub fn new(alloc: Global) -> Spread
        ensures { AreNone result }
    {
        Spread {
            rows: Rows::new(alloc),
            queue: Queue::new(alloc),
            best: MOST_COST,
            limit: MOST_COST,
        }
    }

    /// Removes all exits, in the time that it took to keep them.
    pub fn clear(&mut self)
        requires { IsMarked self.old.rows }
        ensures none { AreNone self.new }
        ensures rooms { SameRooms self.old.rows self.new.rows }
    {
        self.rows.clear();
        self.queue.clear();
    }

    /// Queues the exit, which is at the point, if it may be part of a first walk.
    pub fn offer(&mut self, problem: &Problem<'_>, at: Point, exit: Exit) -> Result<(), AllocError>
        requires ready { IsReady problem.now }
        requires best { self.old.best ≤ most_cost }
        requires way { IsWayAhead problem.now exit.place at exit.ahead }
        requires stage { exit.place.stage ≤ length problem.now.task.now.via }
        requires offerable { IsOfferable exit.ahead }
        ensures rows { self.new.rows ≡ self.old.rows }
        ensures adds { OnOk result ((line_of : ℕ → Way → ℕ) → exit.line ≡ line_of exit.place.crossing (way_of exit.place.heading) →
            IsSound problem.now line_of self.old → Adds problem.now line_of self.old self.new 1) }
        ensures offered { OnOk result (IsOffered problem.now self.new None at exit) }
    {
        let bound = exit.ahead.cost + problem.bound(&exit.place, at);
        if bound > self.best || exit.ahead.runs > MOST_RUNS {
            return Ok(());
        }
        self.queue.push(Candidate { bound, item: exit })?;
        Ok(())
    }

    /// Offers to end by the stub of the ending, to a walk that arrives at its port with the
    /// heading.
    fn offer_stub(
        &mut self,
        problem: &Problem<'_>,
        lists: &LineLists,
        ending: &Ending,
        heading: Dir,
    ) -> Result<(), AllocError>
        requires ready { IsReady problem.now }
        requires lists { AreListsOf problem.now.arena.now lists.now }
        requires ending { Contains problem.now.endings.items ending.now }
        requires sound { IsSound problem.now (number_of lists.now) self.old }
        ensures rows { self.new.rows ≡ self.old.rows }
        ensures adds { OnOk result (Adds problem.now (number_of lists.now) self.old self.new 1) }
        ensures offered { OnOk result (IsOffered problem.now self.new None ending.now.port
            (exit_of (number_of lists.now) (place_at ending.now.crossing (length problem.now.task.now.via) heading) None
            (with_stretch problem.now.task.now.penalty heading (record { from = ending.now.port; dir = ending.now.dir; steps = ending.now.rest }) nothing))) }
    {
        let stub = Stretch {
            from: ending.port,
            dir: ending.dir,
            steps: ending.rest,
        };
        let exit = Exit {
            place: Place {
                crossing: ending.crossing,
                stage: problem.task.via.as_slice().len() as u32,
                heading,
            },
            line: lists.line_of(problem.arena.index(ending.crossing), heading.way()),
            next: None,
            ahead: NOTHING.behind(heading, stub, problem.task.penalty),
        };
        self.offer(problem, ending.port, exit)?;
        Ok(())
    }

    /// Offers to end by the stub of the ending, in all headings.
    fn offer_ending(
        &mut self,
        problem: &Problem<'_>,
        lists: &LineLists,
        ending: &Ending,
    ) -> Result<(), AllocError>
        requires ready { IsReady problem.now }
        requires lists { AreListsOf problem.now.arena.now lists.now }
        requires ending { Contains problem.now.endings.items ending.now }
        requires sound { IsSound problem.now (number_of lists.now) self.old }
        ensures rows { self.new.rows ≡ self.old.rows }
        ensures adds { OnOk result (Adds problem.now (number_of lists.now) self.old self.new 4) }
        ensures offered { OnOk result (IsStubOffered problem.now (number_of lists.now) self.new None ending.now) }
    {
        self.offer_stub(problem, lists, ending, Dir::East)?;
        self.offer_stub(problem, lists, ending, Dir::South)?;
        self.offer_stub(problem, lists, ending, Dir::West)?;
        self.offer_stub(problem, lists, ending, Dir::North)?;
        Ok(())
    }

    /// Offers the stubs of the end choices.
    fn offer_endings(&mut self, problem: &Problem<'_>, lists: &LineLists) -> Result<(), AllocError>
        requires ready { IsReady problem.now }
        requires lists { AreListsOf problem.now.arena.now lists.now }
        requires sound { IsSound problem.now (number_of lists.now) self.old }
        ensures rows { self.new.rows ≡ self.old.rows }
        ensures adds { OnOk result (Adds problem.now (number_of lists.now) self.old self.new (4 * length problem.now.endings.items)) }
        ensures offered { OnOk result (All (IsStubOffered problem.now (number_of lists.now) self.new None) problem.now.endings.items) }
    {
        for ending in &problem.endings {
            self.offer_ending(problem, lists, ending)?;
        }
        Ok(())
    }

    /// Lets its line keep the exit, which is at the point, for walks in the stage, and propagates it;
    /// unless what the line keeps is as good.
    fn take_in(
        &mut self,
        problem: &Problem<'_>,
        lists: &LineLists,
        touches: &Touches,
        exit: &Exit,
        at: Point,
        stage: u32,
    ) -> Result<(), AllocError>
        requires ready { IsReady problem.now }
        requires of { AreOf problem.now lists.now touches.now }
        requires searching { IsSearching problem.now (number_of lists.now) self.old (Some exit.now) None }
        requires exit { IsExit problem.now (number_of lists.now) exit.now at }
        requires comes { ComesTo problem.now.task.now.via stage at exit.now.place.stage }
        ensures searching { OnOk result (IsSearching problem.now (number_of lists.now) self.new (Some exit.now) None) }
        ensures grows { OnOk result (Grows problem.now lists.now self.old self.new) }
        ensures taken { OnOk result (IsLate (kept_in self.new.rows stage exit.now.line exit.now.place.heading) (kept_of problem.now stage at exit.now)) }
        ensures err { OnErr result (IsMarked self.new.rows) }
    {
        let heading = exit.place.heading;
        let kept = Kept {
            crossing: exit.place.crossing,
            from: counts_from(problem.task.via.as_slice(), stage, heading, at),
            at: reach(heading, at),
            next: exit.next,
            ahead: exit.ahead,
        };
        if self.rows.is_late(stage, exit.line, heading, &kept) {
            return Ok(());
        }
        let from = self.rows.stop(stage, exit.line, heading, &kept);
        self.rows.keep(stage, exit.line, heading, kept)?;
        let run = Run {
            stage,
            line: exit.line,
            heading,
            end: at,
            kept: Kept { from, ..kept },
        };
        self.propagate(problem, lists, touches, &run)?;
        Ok(())
    }

    /// Takes the exit in each stage from which a walk reaches it.
    fn take(
        &mut self,
        problem: &Problem<'_>,
        lists: &LineLists,
        touches: &Touches,
        exit: &Exit,
    ) -> Result<(), AllocError>
        requires ready { IsReady problem.now }
        requires of { AreOf problem.now lists.now touches.now }
        requires searching { IsSearching problem.now (number_of lists.now) self.old (Some exit.now) None }
        requires exit { (at : PointOf) × IsExit problem.now (number_of lists.now) exit.now at }
        ensures searching { OnOk result (IsSearching problem.now (number_of lists.now) self.new (Some exit.now) None) }
        ensures grows { OnOk result (Grows problem.now lists.now self.old self.new) }
        ensures taken { OnOk result ((at : PointOf) → StandsAt problem.now.arena.now exit.now.place.crossing at → IsTaken problem.now self.new at exit.now) }
        ensures err { OnErr result (IsMarked self.new.rows) }
    {
        let at = problem.arena.point(exit.place.crossing);
        for stage in 0..exit.place.stage + 1 {
            if stage_at(problem.task.via.as_slice(), stage, at) == exit.place.stage {
                self.take_in(problem, lists, touches, exit, at, stage)?;
            }
        }
        Ok(())
    }

    /// Lets lines keep the exits of all walks that may be first and cost no more than the limit.
    fn spread_within(
        &mut self,
        problem: &Problem<'_>,
        lists: &LineLists,
        touches: &Touches,
        limit: u64,
    ) -> Result<(), AllocError>
        requires ready { IsReady problem.now }
        requires lists { AreListsOf problem.now.arena.now lists.now }
        requires touches { ∥ AreTouches lists.now.lines problem.now.solids.now touches.now ∥₁ }
        requires none { AreNone self.old }
        requires rooms { HasRooms problem.now (number_of lists.now) self.old }
        requires limit { limit ≤ most_cost }
        ensures settled { OnOk result (IsSettled problem.now (number_of lists.now) self.new) }
        ensures limit { OnOk result (self.new.limit ≡ limit) }
        ensures err { OnErr result (IsMarked self.new.rows) }
    {
        self.best = limit;
        self.limit = limit;
        self.offer_endings(problem, lists)?;
        while let Some(candidate) = self.queue.pop() {
            if candidate.bound > self.best {
                break;
            }
            self.take(problem, lists, touches, &candidate.item)?;
        }
        Ok(())
    }

    /// Lets lines keep the exits of all walks that may be first.
    ///
    /// Few exits matter where the limit is little more than what the first walk costs. So limits rise
    /// from a lower bound, until a walk costs less; after two of them any walk is looked for.
    pub fn spread(
        &mut self,
        problem: &Problem<'_>,
        lists: &LineLists,
        touches: &Touches,
    ) -> Result<(), AllocError>
        requires ready { IsReady problem.now }
        requires lists { AreListsOf problem.now.arena.now lists.now }
        requires touches { ∥ AreTouches lists.now.lines problem.now.solids.now touches.now ∥₁ }
        requires none { AreNone self.old }
        requires rooms { HasRooms problem.now (number_of lists.now) self.old }
        ensures spread { OnOk result (IsSpread problem.now (number_of lists.now) self.new) }
        ensures err { OnErr result (IsMarked self.new.rows) }
    {
        let least = least_cost(problem);
        let mut limit = raised(least, least, problem.task.penalty);
        loop {
            self.spread_within(problem, lists, touches, limit)?;
            if self.best < limit || limit == MOST_COST {
                return Ok(());
            }
            self.clear();
            limit = raised(limit, least, problem.task.penalty);
        }
    }
}
