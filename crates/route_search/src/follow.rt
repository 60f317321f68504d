//! Follows the first walk forwards, from the entry to the end, by what is known at places.

ghost use Rattle.std.specs.Prelude.{◌≡◌, ◌⊎◌, ◌+◌, ◌*◌, ◌^◌, ◌<◌, ◌≤◌, ◌==◌, ◌++◌, ◌∷◌, [], ◌↔◌, if◌then◌else◌, IsTrue, None, Some, All, Contains, IfOk, IfSome, IsNone, OnOk, unsigned_abs};
ghost use Rattle.move_model.specs.Ahead.{with_stretch};
ghost use Rattle.plane_geom.specs.Along.{across, way_of};
ghost use Rattle.plane_geom.specs.declared.point.Dir.{Dir};
ghost use Rattle.route_search.specs.Following.{IsEarliest, IsJoined, IsMoveIn, IsNext, IsNextIn, IsNoLater, IsNoneIn, IsTailIn, MayEnd};
ghost use Rattle.route_search.specs.declared.follow.Move.{Move};
ghost use Rattle.route_search.specs.declared.follow.Tail.{Tail};
ghost use Rattle.exit_spread.specs.Propagating.{IsOfferable};
ghost use Rattle.route_search.specs.Known.{IsKnowing, IsPlace, knowledge_of, known_of, towards_of};
ghost use Rattle.route_search.specs.Starting.{EntersAt, IsBetterOf, IsLeastEntry, whole_from};
ghost use Rattle.search_problem.specs.declared.ends.Entry.{Entry};
ghost use Rattle.search_problem.specs.Origins.{IsSmallEntry};
ghost use Rattle.search_problem.specs.Problems.{IsReady};
ghost use Rattle.walk_model.specs.Answers.{IsAnswer};
ghost use Rattle.walk_model.specs.Cost.{turn};
ghost use Rattle.walk_model.specs.Order.{IsFirst, IsRouteOf, Triple};

use exit_spread::Spread;
use line_lists::LineLists;
use move_model::{Ahead, Place, Stretch};
use plane_geom::{Dir, Point};
use search_problem::{DIRS, Ending, Entry, NOTHING, Problem, stage_at};
use std::alloc::{AllocError, Global};
use walk_model::{Points, Route};

/// An end stub that a walk is on: the steps that are left of it, and its end choice. It is earlier
/// with fewer steps left, and then by the choice.
#[derive(Clone, Copy, Debug, PartialEq, Eq, PartialOrd, Ord)]
pub struct Tail {
    pub steps: u64,
    pub end: u32,
}

/// A position of a walk: the place, what is ahead of it, and an end stub that passes the place and
/// may also end the walk.
#[derive(Clone, Copy, Debug)]
pub struct Standing {
    pub place: Place,
    pub ahead: Ahead,
    pub tail: Option<Tail>,
}

impl Standing {
    /// The end stub that passes the place, if it continues in the direction.
    fn under_way(&self, dir: Dir) -> Option<Tail>
        ensures some { (b : Tail) → (result ≡ Some b) ↔ ((dir ≡ self.now.place.heading) × (self.now.tail ≡ Some b)) }
    {
        if dir == self.place.heading {
            self.tail
        } else {
            None
        }
    }
}

/// A move to the next crossing.
#[derive(Clone, Copy, Debug)]
struct Move {
    steps: u64,
    to: Place,
    ahead: Ahead,
}

/// How a walk continues: it ends with a stub, or goes on to the next place.
#[derive(Clone, Copy, Debug)]
pub enum Next {
    Stop(Tail),
    Go(Standing),
}

/// Whether the two are the same.
fn are_same(one: Ahead, other: Ahead) -> bool
    ensures { IsTrue result ↔ (one ≡ other) }
{
    one == other
}

/// Whether `ahead` is `behind` extended by the stretch, for a walk that enters the stretch with
/// `heading`.
fn makes(behind: Ahead, heading: Dir, stretch: Stretch, penalty: u64, ahead: Ahead) -> bool
    requires cost { behind.cost + stretch.steps + penalty * 2 < 2 ^ 64 }
    requires runs { behind.runs + 1 < 2 ^ 32 }
    requires lean { unsigned_abs behind.lean + unsigned_abs (across (way_of stretch.dir) stretch.from) < 2 ^ 63 }
    ensures { IsTrue result ↔ (with_stretch penalty heading stretch behind ≡ ahead) }
{
    behind.behind(heading, stretch, penalty) == ahead
}

/// The end stub of the ending.
fn stub_of(ending: &Ending) -> Tail
    ensures { result ≡ record { steps = ending.now.stub; end = ending.now.choice } }
{
    Tail {
        steps: ending.stub,
        end: ending.choice,
    }
}

/// The earlier of `a` and `b`.
fn earlier(a: Option<Tail>, b: Tail) -> Tail
    ensures one { (a ≡ Some result) ⊎ (result ≡ b) }
    ensures no_later { IsNoLater result b }
    ensures than_any { IfSome a (IsNoLater result) }
{
    match a {
        None => b,
        Some(a) => a.min(b),
    }
}

/// The earlier continuation of two that begin at one position: along the end stub, or along the
/// move; both at once where they run together.
fn joined(tail: Option<Tail>, step: Option<Move>) -> Option<Next>
    ensures none { IsNone result → (tail ≡ None) × (step ≡ None) }
    ensures next { IfSome result (IsJoined tail step) }
{
    match (tail, step) {
        (None, None) => None,
        (None, Some(step)) => Some(Next::Go(Standing {
            place: step.to,
            ahead: step.ahead,
            tail: None,
        })),
        (Some(tail), None) => Some(Next::Stop(tail)),
        (Some(tail), Some(step)) => {
            // A list of steps that ends comes before those that continue it.
            if tail.steps <= step.steps {
                return Some(Next::Stop(tail));
            }
            let steps = tail.steps - step.steps;
            Some(Next::Go(Standing {
                place: step.to,
                ahead: step.ahead,
                tail: Some(Tail {
                    steps,
                    end: tail.end,
                }),
            }))
        }
    }
}

/// Appends the corner at `at` if the walk turns there from `heading` to `dir`.
fn turn_off(points: &mut Vec<Point>, heading: Dir, dir: Dir, at: Point) -> Result<(), AllocError>
    ensures { OnOk result (points.new.items ≡ (if turn heading dir == 0 then points.old.items else points.old.items ++ (at ∷ []))) }
{
    if dir != heading {
        points.push(at)?;
    }
    Ok(())
}

/// Follows the first walk by what is known at places, once the exits of its problem were spread.
#[derive(Clone, Copy)]
pub struct Follower<'a> {
    pub problem: &'a Problem<'a>,
    pub lists: &'a LineLists,
    pub spread: &'a Spread,
}

impl<'a> Follower<'a> {
    /// What is known to lie ahead of the place.
    fn ahead_of(&self, place: &Place) -> Option<Ahead>
        requires knowing { IsKnowing self.now }
        requires place { IsPlace self.now.problem.now place.now }
        ensures { result ≡ known_of self.now place.now }
    {
        self.spread.ahead_of(self.problem, self.lists, place)
    }

    /// Whether what is known in the direction is what is ahead of the walk at the position.
    fn leads(&self, standing: &Standing, dir: Dir) -> bool
        requires knowing { IsKnowing self.now }
        requires place { IsPlace self.now.problem.now standing.now.place }
        ensures { IsTrue result ↔ (towards_of self.now standing.now.place dir ≡ Some standing.now.ahead) }
    {
        let towards = self
            .spread
            .ahead_towards(self.problem, self.lists, &standing.place, dir);
        let Some(known) = towards else {
            return false;
        };
        are_same(known, standing.ahead)
    }

    /// Whether a walk at the position may end with the stub of the ending, which leads in the
    /// direction.
    fn may_end(&self, standing: &Standing, dir: Dir, ending: &Ending) -> bool
        requires ready { IsReady self.now.problem.now }
        requires stage { standing.now.place.stage ≤ 4 }
        requires ending { Contains self.now.problem.now.endings.items ending.now }
        ensures { IsTrue result ↔ MayEnd self.now.problem.now standing.now dir ending.now }
    {
        let place = standing.place;
        if ending.crossing != place.crossing
            || ending.dir != dir
            || place.stage as usize != self.problem.task.via.as_slice().len()
        {
            return false;
        }
        let stub = Stretch {
            from: ending.port,
            dir,
            steps: ending.rest,
        };
        makes(
            NOTHING,
            place.heading,
            stub,
            self.problem.task.penalty,
            standing.ahead,
        )
    }

    /// The earliest end stub in the direction by which the walk may end.
    fn tail_in(&self, standing: &Standing, dir: Dir) -> Option<Tail>
        requires ready { IsReady self.now.problem.now }
        requires stage { standing.now.place.stage ≤ 4 }
        ensures { IsEarliest (IsTailIn self.now.problem.now standing.now dir self.now.problem.now.endings.items) result }
    {
        let mut best = standing.under_way(dir);
        for ending in &self.problem.endings {
            if self.may_end(standing, dir, ending) {
                best = Some(earlier(best, stub_of(ending)));
            }
        }
        best
    }

    /// The move in the direction, if an optimal walk may take it.
    fn move_in(&self, standing: &Standing, dir: Dir) -> Option<Move>
        requires knowing { IsKnowing self.now }
        requires place { IsPlace self.now.problem.now standing.now.place }
        ensures is { IfSome result (IsMoveIn self.now.problem.now (knowledge_of self.now) standing.now dir) }
        ensures none { IsNone result → (m : Move) → IsMoveIn self.now.problem.now (knowledge_of self.now) standing.now dir m → ⊥ }
    {
        if !self.leads(standing, dir) {
            return None;
        }
        let crossing = self
            .problem
            .arena
            .next_on_line(standing.place.crossing, dir)?;
        let from = self.problem.arena.point(standing.place.crossing);
        let at = self.problem.arena.point(crossing);
        let stage = stage_at(self.problem.task.via.as_slice(), standing.place.stage, at);
        let to = Place {
            crossing,
            stage,
            heading: dir,
        };
        let stretch = Stretch {
            from,
            dir,
            steps: from.distance(at),
        };
        let ahead = self.ahead_of(&to)?;
        let heading = standing.place.heading;
        if !makes(
            ahead,
            heading,
            stretch,
            self.problem.task.penalty,
            standing.ahead,
        ) {
            return None;
        }
        Some(Move {
            steps: stretch.steps,
            to,
            ahead,
        })
    }

    /// The first continuation of an optimal walk in the direction.
    fn next_in(&self, standing: &Standing, dir: Dir) -> Option<Next>
        requires knowing { IsKnowing self.now }
        requires place { IsPlace self.now.problem.now standing.now.place }
        ensures is { IfSome result (IsNextIn self.now.problem.now (knowledge_of self.now) standing.now dir) }
        ensures none { IsNone result → IsNoneIn self.now.problem.now (knowledge_of self.now) standing.now dir }
    {
        let tail = self.tail_in(standing, dir);
        let step = self.move_in(standing, dir);
        joined(tail, step)
    }

    /// The first continuation of an optimal walk, and its direction.
    fn next(&self, standing: &Standing) -> Option<(Dir, Next)>
        requires knowing { IsKnowing self.now }
        requires place { IsPlace self.now.problem.now standing.now.place }
        ensures is { IfSome result (λ r. IsNext self.now.problem.now (knowledge_of self.now) standing.now r.0 r.1) }
        ensures none { IsNone result → (d : Dir) → IsNoneIn self.now.problem.now (knowledge_of self.now) standing.now d }
    {
        for dir in DIRS {
            if let Some(next) = self.next_in(standing, dir) {
                return Some((dir, next));
            }
        }
        None
    }

    /// The route of the first optimal walk from `entry`; `ahead` is what is ahead of it there.
    fn follow(&self, alloc: Global, entry: Entry, ahead: Ahead) -> Result<Route, AllocError>
        requires knowing { IsKnowing self.now }
        requires entry { Contains self.now.problem.now.entries.items entry }
        requires enters { (t : Triple) × EntersAt self.now.problem.now (knowledge_of self.now) entry ahead t }
        ensures { IfOk result (λ r. (t : Triple) × IsFirst self.now.problem.now.solids.now self.now.problem.now.task.now t × IsRouteOf self.now.problem.now.task.now r t) }
    {
        let start = self.problem.task.starts.as_slice()[entry.choice as usize];
        let mut points = vec![in alloc; start.pin]?;
        let mut standing = Standing {
            place: entry.place,
            ahead,
            tail: None,
        };
        loop {
            let Some((dir, next)) = self.next(&standing) else {
                unreachable!()
            };
            let at = self.problem.arena.point(standing.place.crossing);
            turn_off(&mut points, standing.place.heading, dir, at)?;
            match next {
                Next::Go(further) => standing = further,
                Next::Stop(tail) => {
                    points.push(at.forward(dir, tail.steps))?;
                    return Ok(Route {
                        start: entry.choice,
                        end: tail.end,
                        points: Points::from_vec(points),
                        cost: entry.lead + ahead.cost,
                    });
                }
            }
        }
    }

    /// The key of a walk in the order of walks, if it enters at `entry` and has `ahead` ahead of
    /// it.
    fn whole(entry: &Entry, ahead: Ahead) -> Ahead
        requires entry { IsSmallEntry entry.now }
        requires ahead { IsOfferable ahead }
        ensures { result ≡ whole_from entry.now ahead }
    {
        Ahead {
            cost: entry.lead + ahead.cost,
            runs: ahead.runs + 1,
            lean: ahead.lean + entry.port.across(entry.place.heading.way()),
        }
    }

    /// The better of `entry` and the entry found so far; on a tie the one found so far.
    fn better(&self, entry: Entry, found: Option<(Entry, Ahead)>) -> Option<(Entry, Ahead)>
        requires knowing { IsKnowing self.now }
        requires entry { Contains self.now.problem.now.entries.items entry }
        requires found { IfSome found (λ f. Contains self.now.problem.now.entries.items f.0 × (known_of self.now f.0.place ≡ Some f.1)) }
        ensures { IsBetterOf (known_of self.now) entry found result }
    {
        let Some(ahead) = self.ahead_of(&entry.place) else {
            return found;
        };
        match found {
            None => Some((entry, ahead)),
            Some((other, known)) => {
                if Follower::whole(&entry, ahead) < Follower::whole(&other, known) {
                    Some((entry, ahead))
                } else {
                    Some((other, known))
                }
            }
        }
    }

    /// The entry of the optimal walks, the earliest start choice on a tie, and what is ahead of it.
    fn first_entry(&self) -> Option<(Entry, Ahead)>
        requires knowing { IsKnowing self.now }
        ensures least { IfSome result (λ f. IsLeastEntry (known_of self.now) self.now.problem.now.entries.items f.0 f.1) }
        ensures none { IsNone result → All (λ e. known_of self.now e.place ≡ None) self.now.problem.now.entries.items }
    {
        let mut best = None;
        for &entry in &self.problem.entries {
            best = self.better(entry, best);
        }
        best
    }

    /// The route of the first walk, or `None` exactly if no walk is legal. The only error is out of
    /// memory.
    pub fn route(&self, alloc: Global) -> Result<Option<Route>, AllocError>
        requires { IsKnowing self.now }
        ensures { IfOk result (IsAnswer self.now.problem.now.solids.now self.now.problem.now.task.now) }
    {
        match self.first_entry() {
            None => Ok(None),
            Some((entry, ahead)) => {
                let route = self.follow(alloc, entry, ahead)?;
                Ok(Some(route))
            }
        }
    }
}
