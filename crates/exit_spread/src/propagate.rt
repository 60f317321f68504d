//! Propagates an exit that a line keeps to all places behind it.
ghost use Rattle.std.specs.Prelude.{◌≡◌, ◌≢◌, ◌+◌, ◌*◌, ◌<◌, ◌≤◌, ◌≤ℤ◌, ◌<ℤ◌, ◌^◌, ℕ, None, Some, All, Any, Contains, IfSome, IsNone, IsTrue, OnOk, length};
ghost use Rattle.line_lists.specs.Lists.{AreListsOf, number_of, stops_of};
ghost use Rattle.move_model.specs.Ahead.{with_stretch};
ghost use Rattle.move_model.specs.Places.{ComesTo};
ghost use Rattle.plane_geom.specs.Along.{across, reach, way_of};
ghost use Rattle.plane_geom.specs.Point.{PointIsOnSheet, opposite};
ghost use Rattle.plane_geom.specs.declared.point.Point.{Point as PointOf};
ghost use Rattle.search_problem.specs.Problems.{IsReady};
ghost use Rattle.walk_model.specs.Cost.{turn};
ghost use Rattle.exit_rows.specs.Exits.{CountsAt, IsSmallKept, ahead_at};
ghost use Rattle.exit_spread.specs.Propagating.{Adds, AreOf, IsBehind, IsFurtherAhead, IsMetAt, IsRun, IsSound, IsTurnedAt, IsTurnedOff, reach_along};
ghost use Rattle.exit_spread.specs.Near.{HasReach};
ghost use Rattle.exit_spread.specs.Offers.{IsPropagatedAt};
ghost use Rattle.exit_spread.specs.Searching.{most_stops};

use crate::held::{held_from, may_begin};
use crate::near::{Near, near_from};
use crate::run::{Run, crosswise, first_begin, last_begin, point_on, reach_along, stops_between};
use crate::spread::Spread;
use exit_rows::Exit;
use line_arena::CrossId;
use line_lists::{LineLists, Stop};
use move_model::{Ahead, Place, Stretch};
use plane_geom::{Dir, Point};
use search_problem::{Entry, Problem};
use side_touches::{Touches, reach};
use std::alloc::AllocError;

/// The turns from one heading into a run.
#[derive(Clone, Copy, Debug)]
pub struct Turns {
    /// The heading before the turn.
    pub before: Dir,
    /// How far on in that heading the line of the run is.
    pub end: i64,
    /// Where on the run the turns may be.
    pub near: Near,
}

/// The crossing of the stop that is so far along its line.
fn crossing_along(stops: &[Stop], along: i64) -> Option<CrossId>
    ensures some { IfSome result (λ c. Any (λ s. (s.along ≡ along) × (s.crossing ≡ c)) stops.now) }
    ensures none { IsNone result → All (λ s. s.along ≢ along) stops.now }
{
    for stop in stops {
        if stop.along == along {
            return Some(stop.crossing.id());
        }
    }
    None
}

/// Whether a walk that reaches the point may pass checkpoints there and then has passed `stage`,
/// where the next one is not there.
fn rises_to(via: &[Point], stage: u32, at: Point) -> bool
    ensures { (j : ℕ) → j < stage → ComesTo via.now j at stage → IsTrue result }
{
    stage > 0 && via.get(stage as usize - 1).copied() == Some(at)
}

/// What is ahead of a walk that arrives at the point with the heading and turns to `dir`, where
/// this is ahead in that direction.
pub fn turned(heading: Dir, at: Point, dir: Dir, penalty: u64, ahead: Ahead) -> Ahead
    requires penalty { penalty ≤ 10 ^ 9 }
    requires ahead { IsFurtherAhead ahead }
    requires within { PointIsOnSheet at }
    ensures { result ≡ with_stretch penalty heading (record { from = at; dir = dir; steps = 0 }) ahead }
{
    let turn = Stretch {
        from: at,
        dir,
        steps: 0,
    };
    ahead.behind(heading, turn, penalty)
}

impl Run {
    /// What is ahead of the point by the run's exit, if the point is on its whole line and the exit
    /// counts there.
    fn ahead_behind(&self, at: Point) -> Option<Ahead>
        requires small { IsSmallKept self.now.kept }
        requires at_within { PointIsOnSheet at }
        requires end_within { PointIsOnSheet self.now.end }
        ensures some { IfSome result (λ v. CountsAt self.now.kept (reach self.now.heading at) × (across (way_of self.now.heading) at ≡ across (way_of self.now.heading) self.now.end) × (v ≡ ahead_at self.now.kept (reach self.now.heading at))) }
        ensures none { IsNone result → CountsAt self.now.kept (reach self.now.heading at) → across (way_of self.now.heading) at ≢ across (way_of self.now.heading) self.now.end }
    {
        if at.across(self.heading.way()) != self.end.across(self.heading.way()) {
            return None;
        }
        self.kept.counted_at(reach(self.heading, at))
    }

    /// The exit at the crossing, which is at the point, by doubling back into the run; `ahead` is
    /// what is ahead along the run.
    fn tip(&self, crossing: CrossId, at: Point, ahead: Ahead, penalty: u64) -> Exit
        requires penalty { penalty ≤ 10 ^ 9 }
        requires ahead { IsFurtherAhead ahead }
        requires within { PointIsOnSheet at }
        ensures { result ≡ record {
          place = record { crossing = crossing; stage = self.now.stage; heading = opposite self.now.heading };
          line = self.now.line;
          next = None;
          ahead = with_stretch penalty (opposite self.now.heading) (record { from = at; dir = self.now.heading; steps = 0 }) ahead;
        } }
    {
        let heading = self.heading.opposite();
        Exit {
            place: Place {
                crossing,
                stage: self.stage,
                heading,
            },
            line: self.line,
            next: None,
            ahead: turned(heading, at, self.heading, penalty, ahead),
        }
    }

    /// The exit at the crossing by going straight on along the run, where `ahead` is ahead.
    fn on(&self, crossing: CrossId, ahead: Ahead) -> Exit
        ensures { result ≡ record { place = record { crossing = crossing; stage = self.now.stage; heading = self.now.heading }; line = self.now.line; next = None; ahead = ahead } }
    {
        Exit {
            place: Place {
                crossing,
                stage: self.stage,
                heading: self.heading,
            },
            line: self.line,
            next: None,
            ahead,
        }
    }

    /// The exit at the stop, which is at the point, by a turn from the heading `before` into the
    /// run.
    fn turn(&self, before: Dir, stop: &Stop, at: Point, penalty: u64) -> Exit
        requires penalty { penalty ≤ 10 ^ 9 }
        requires small { IsSmallKept self.now.kept }
        requires within { PointIsOnSheet at }
        requires upto { reach self.now.heading at ≤ℤ self.now.kept.at }
        ensures { result ≡ record {
          place = record { crossing = stop.now.crossing; stage = self.now.stage; heading = before };
          line = stop.now.across;
          next = Some self.now.heading;
          ahead = with_stretch penalty before (record { from = at; dir = self.now.heading; steps = 0 }) (ahead_at self.now.kept (reach self.now.heading at));
        } }
    {
        let ahead = self.kept.ahead_at(reach(self.heading, at));
        Exit {
            place: Place {
                crossing: stop.crossing.id(),
                stage: self.stage,
                heading: before,
            },
            line: stop.across as usize,
            next: Some(self.heading),
            ahead: turned(before, at, self.heading, penalty, ahead),
        }
    }
}

impl Spread {
    /// Lowers the best cost to that of a walk that enters by the entry and goes along the run.
    fn meet_entry(&mut self, problem: &Problem<'_>, lists: &LineLists, run: &Run, entry: &Entry)
        requires ready { IsReady problem.now }
        requires lists { AreListsOf problem.now.arena.now lists.now }
        requires run { IsRun problem.now (number_of lists.now) run.now }
        requires entry { Contains problem.now.entries.items entry.now }
        requires sound { IsSound problem.now (number_of lists.now) self.old }
        ensures rows { self.new.rows ≡ self.old.rows }
        ensures adds { Adds problem.now (number_of lists.now) self.old self.new 0 }
    {
        let number = problem.arena.index(entry.place.crossing);
        let line = lists.line_of(number, run.heading.way());
        if entry.place.stage != run.stage || line != run.line {
            return;
        }
        if let Some(ahead) = run.kept.counted_at(reach(run.heading, entry.port)) {
            let whole = turned(
                entry.place.heading,
                entry.port,
                run.heading,
                problem.task.penalty,
                ahead,
            );
            self.best = self.best.min(entry.lead + whole.cost);
        }
    }

    /// Lowers the best cost to that of each walk that enters the line and goes along the run.
    fn meet_entries(&mut self, problem: &Problem<'_>, lists: &LineLists, run: &Run)
        requires ready { IsReady problem.now }
        requires lists { AreListsOf problem.now.arena.now lists.now }
        requires run { IsRun problem.now (number_of lists.now) run.now }
        requires sound { IsSound problem.now (number_of lists.now) self.old }
        ensures rows { self.new.rows ≡ self.old.rows }
        ensures adds { Adds problem.now (number_of lists.now) self.old self.new 0 }
    {
        for entry in &problem.entries {
            self.meet_entry(problem, lists, run, entry);
        }
    }

    /// Offers what one may do at the checkpoint, if the run may begin there: to double back into
    /// it, and to go straight on along it where checkpoints are passed.
    fn meet_checkpoint(
        &mut self,
        problem: &Problem<'_>,
        lists: &LineLists,
        run: &Run,
        at: Point,
    ) -> Result<(), AllocError>
        requires ready { IsReady problem.now }
        requires lists { AreListsOf problem.now.arena.now lists.now }
        requires run { IsRun problem.now (number_of lists.now) run.now }
        requires checkpoint { Contains problem.now.task.now.via at }
        requires sound { IsSound problem.now (number_of lists.now) self.old }
        ensures rows { self.new.rows ≡ self.old.rows }
        ensures adds { OnOk result (Adds problem.now (number_of lists.now) self.old self.new 2) }
        ensures met { OnOk result (IsMetAt problem.now (number_of lists.now) self.new run.now at) }
    {
        let Some(ahead) = run.ahead_behind(at) else {
            return Ok(());
        };
        let along = at.along(run.heading.way());
        let Some(crossing) = crossing_along(lists.stops(run.line), along) else {
            return Ok(());
        };
        let tip = run.tip(crossing, at, ahead, problem.task.penalty);
        self.offer(problem, at, tip)?;
        if rises_to(problem.task.via.as_slice(), run.stage, at) {
            self.offer(problem, at, run.on(crossing, ahead))?;
        }
        Ok(())
    }

    /// Offers what one may do at the checkpoints on the line behind the exit.
    fn meet_checkpoints(
        &mut self,
        problem: &Problem<'_>,
        lists: &LineLists,
        run: &Run,
    ) -> Result<(), AllocError>
        requires ready { IsReady problem.now }
        requires lists { AreListsOf problem.now.arena.now lists.now }
        requires run { IsRun problem.now (number_of lists.now) run.now }
        requires sound { IsSound problem.now (number_of lists.now) self.old }
        ensures rows { self.new.rows ≡ self.old.rows }
        ensures adds { OnOk result (Adds problem.now (number_of lists.now) self.old self.new (2 * length problem.now.task.now.via)) }
        ensures met { OnOk result (All (IsMetAt problem.now (number_of lists.now) self.new run.now) problem.now.task.now.via) }
    {
        for &at in problem.task.via.as_slice() {
            self.meet_checkpoint(problem, lists, run, at)?;
        }
        Ok(())
    }

    /// Offers to turn into the run at the stop, if it is near and a run to it may begin.
    fn offer_turn(
        &mut self,
        problem: &Problem<'_>,
        lists: &LineLists,
        touches: &Touches,
        run: &Run,
        turns: &Turns,
        stop: &Stop,
    ) -> Result<(), AllocError>
        requires ready { IsReady problem.now }
        requires of { AreOf problem.now lists.now touches.now }
        requires run { IsRun problem.now (number_of lists.now) run.now }
        requires turn { turn turns.now.before run.now.heading ≡ 1 }
        requires end { turns.now.end ≡ reach turns.now.before run.now.end }
        requires stop { Contains (stops_of lists.now run.now.line) stop.now }
        requires from { run.now.kept.from ≤ℤ reach_along run.now.heading stop.now.along }
        requires before { reach_along run.now.heading stop.now.along <ℤ run.now.kept.at }
        requires sound { IsSound problem.now (number_of lists.now) self.old }
        ensures rows { self.new.rows ≡ self.old.rows }
        ensures adds { OnOk result (Adds problem.now (number_of lists.now) self.old self.new 1) }
        ensures turned { OnOk result (HasReach turns.now.near (reach_along run.now.heading stop.now.along) →
            IsTurnedAt problem.now (number_of lists.now) self.new run.now turns.now.before stop.now) }
    {
        if !turns.near.has(reach_along(run.heading, stop.along)) {
            return Ok(());
        }
        if !may_begin(
            problem,
            touches,
            stop.across as usize,
            turns.before,
            stop.along,
            turns.end,
            run.heading,
        ) {
            return Ok(());
        }
        let at = point_on(&lists.lines()[run.line], stop.along);
        let exit = run.turn(turns.before, stop, at, problem.task.penalty);
        self.offer(problem, at, exit)?;
        Ok(())
    }

    /// Offers to turn into the run, wherever it is held for a walk that reaches it with the
    /// heading `before`.
    fn turn_off(
        &mut self,
        problem: &Problem<'_>,
        lists: &LineLists,
        touches: &Touches,
        run: &Run,
        before: Dir,
    ) -> Result<(), AllocError>
        requires ready { IsReady problem.now }
        requires of { AreOf problem.now lists.now touches.now }
        requires run { IsRun problem.now (number_of lists.now) run.now }
        requires turn { turn before run.now.heading ≡ 1 }
        requires sound { IsSound problem.now (number_of lists.now) self.old }
        ensures rows { self.new.rows ≡ self.old.rows }
        ensures adds { OnOk result (Adds problem.now (number_of lists.now) self.old self.new (most_stops lists.now)) }
        ensures turned { OnOk result (IsTurnedOff problem.now (number_of lists.now) self.new run.now before) }
    {
        let Some(held) = held_from(problem, touches, run, before) else {
            return Ok(());
        };
        let origins = problem.origins_after(run.stage);
        let near = near_from(origins, run, before, self.best, problem.task.penalty);
        let from = first_begin(near.first(), &run.kept);
        let to = last_begin(held, &run.kept);
        if to < from {
            return Ok(());
        }
        let end = reach(before, run.end);
        let turns = Turns { before, end, near };
        let behind = stops_between(lists.stops(run.line), run.heading, from, to);
        for stop in behind {
            self.offer_turn(problem, lists, touches, run, &turns, stop)?;
        }
        Ok(())
    }

    /// Propagates the exit of the run.
    pub fn propagate(
        &mut self,
        problem: &Problem<'_>,
        lists: &LineLists,
        touches: &Touches,
        run: &Run,
    ) -> Result<(), AllocError>
        requires ready { IsReady problem.now }
        requires of { AreOf problem.now lists.now touches.now }
        requires run { IsRun problem.now (number_of lists.now) run.now }
        requires sound { IsSound problem.now (number_of lists.now) self.old }
        ensures rows { self.new.rows ≡ self.old.rows }
        ensures adds { OnOk result (Adds problem.now (number_of lists.now) self.old self.new (2 * most_stops lists.now + 8)) }
        ensures propagated { OnOk result ((c : ℕ) (q : PointOf) → IsBehind problem.now (number_of lists.now) run.now c q →
            IsPropagatedAt problem.now (number_of lists.now) self.new None run.now.stage run.now.heading run.now.kept c q) }
    {
        let before = crosswise(run.heading);
        self.meet_entries(problem, lists, run);
        self.meet_checkpoints(problem, lists, run)?;
        self.turn_off(problem, lists, touches, run, before)?;
        self.turn_off(problem, lists, touches, run, before.opposite())?;
        Ok(())
    }
}
