//! Rays, which follow a route away from one of its runs.
ghost use Rattle.std.specs.Prelude.{◌≡◌, ◌↔◌, ◌<◌, ℤ, IsTrue, [], ◌∷◌, length, None, MatchOption};
ghost use Rattle.std.specs.Cmp.Lexicographic.{slice_cmp};
ghost use Rattle.segment_order.specs.declared.side.Side.{Side};
ghost use Rattle.segment_order.specs.Ray.{compare_abreast, entries, entries_of, entries_left, entry_cmp, entry_of, reach_in, ray, trail, travelled};

use crate::run::Run;
use crate::side::{Side, near_side, turn_to};
use plane_geom::Dir;
use std::cmp::Ordering;

/// What a ray does at the end of a run: it turns to the near or to the far side, at the distance
/// `reach` in its direction, or it stops there.
#[derive(Clone, Copy, Debug)]
pub enum Entry {
    Near(i128),
    Stop,
    Far(i128),
}

impl Entry {
    /// The entry of a turn to `side` at the distance `reach`.
    fn at(near: Side, reach: i128, side: Side) -> Entry
        ensures { result ≡ entry_of near reach side }
    {
        if side == near {
            Entry::Near(reach)
        } else {
            Entry::Far(reach)
        }
    }

    /// Entries to the near side come first, the nearest of them first; then a stop; then entries to
    /// the far side, the farthest first.
    pub fn compare(self, other: Entry) -> Ordering
        ensures { result ≡ entry_cmp self other }
    {
        match (self, other) {
            (Entry::Near(p), Entry::Near(q)) => p.cmp(&q),
            (Entry::Near(_), _) => Ordering::Less,
            (_, Entry::Near(_)) => Ordering::Greater,
            (Entry::Stop, Entry::Stop) => Ordering::Equal,
            (Entry::Stop, Entry::Far(_)) => Ordering::Less,
            (Entry::Far(_), Entry::Stop) => Ordering::Greater,
            (Entry::Far(p), Entry::Far(q)) => q.cmp(&p),
        }
    }
}

/// A way along a route, away from one of its runs: the run that is followed, and the runs that are
/// still to come.
#[derive(Clone, Copy)]
pub(crate) struct Ray<'a> {
    near: Side,
    heading: Dir,
    reach: i128,
    onward: bool,
    rest: &'a [Run],
}

/// How far the run's end is in the direction: its coordinate, negated for West and North.
fn reach_in(dir: Dir, run: &Run) -> i128
    ensures { result ≡ reach_in dir run.now }
{
    match dir {
        Dir::East | Dir::South => i128::from(run.hi),
        Dir::West | Dir::North => -i128::from(run.lo),
    }
}

/// The direction of one who goes along the run, onward on its route or back.
fn heading_on(run: &Run, onward: bool) -> Dir
    ensures { result ≡ (travelled onward run.now).heading }
{
    if onward {
        run.heading
    } else {
        run.heading.opposite()
    }
}

/// The run that comes next, and those after it.
fn next_on(rest: &[Run], onward: bool) -> Option<(&Run, &[Run])>
    ensures next { MatchOption result (trail onward rest.now ≡ [])
        (λ n. trail onward rest.now ≡ travelled onward n.0.now ∷ trail onward n.1.now) }
    ensures shorter { MatchOption result (Unit {0}) (λ n. length n.1.now < length rest.now) }
{
    if onward {
        rest.split_first()
    } else {
        rest.split_last()
    }
}

/// Whether the two runs have the same direction and the same ends.
fn are_alike(a: &Run, b: &Run) -> bool
    ensures { IsTrue result → (a.now.heading ≡ b.now.heading) × (a.now.lo ≡ b.now.lo) × (a.now.hi ≡ b.now.hi) }
{
    a.heading == b.heading && a.lo == b.lo && a.hi == b.hi
}

/// What two rays have still to go that have come in one direction as far.
#[derive(Clone, Copy)]
struct Abreast<'a, 'b> {
    heading: Dir,
    reach: i128,
    a: &'a [Run],
    b: &'b [Run],
}

/// The next run, and what comes after it on both ways, if both turn there to runs that are alike.
fn next_alike<'a, 'b>(
    onward: bool,
    heading: Dir,
    a: &'a [Run],
    b: &'b [Run],
) -> Option<(&'a Run, &'a [Run], &'b [Run])>
    ensures same { MatchOption result (Unit {0}) (λ n. (near : Side) (z : ℤ) →
        compare_abreast onward near heading z a.now b.now ≡ compare_abreast onward near (travelled onward n.0.now).heading
        (reach_in (travelled onward n.0.now).heading n.0.now) n.1.now n.2.now) }
    ensures shorter { MatchOption result (Unit {0}) (λ n. length n.1.now < length a.now) }
{
    let (run, a_left) = next_on(a, onward)?;
    let (other, b_left) = next_on(b, onward)?;
    let goes_on = are_alike(run, other) && run.heading.way() != heading.way();
    goes_on.then_some((run, a_left, b_left))
}

/// What two ways have still to go after the turns that they have in common from the start on.
fn past_alike<'a, 'b>(onward: bool, from: Abreast<'a, 'b>) -> Abreast<'a, 'b>
    ensures { (near : Side) → compare_abreast onward near from.entry.heading from.entry.reach from.entry.a.now from.entry.b.now
        ≡ compare_abreast onward near result.heading result.reach result.a.now result.b.now }
{
    let mut at = from;
    while let Some(next) = next_alike(onward, at.heading, at.a, at.b) {
        let heading = heading_on(next.0, onward);
        at = Abreast {
            heading,
            reach: reach_in(heading, next.0),
            a: next.1,
            b: next.2,
        };
    }
    at
}

impl<'a> Ray<'a> {
    /// The ray that leaves the run of the route in the direction.
    pub(crate) fn leaving(run: &Run, route: &'a [Run], dir: Dir) -> Ray<'a>
        ensures { entries_of result ≡ ray route.now run.now dir }
    {
        let onward = run.heading == dir;
        let place = run.place as usize;
        let rest = if onward {
            &route[place.min(route.len())..]
        } else {
            &route[..place.saturating_sub(1).min(route.len())]
        };
        Ray {
            near: near_side(dir),
            heading: dir,
            reach: reach_in(dir, run),
            onward,
            rest,
        }
    }

    /// Whether both rays come in one direction as far, and go on onward, or both back.
    fn is_abreast(self, other: Ray<'_>) -> bool
        ensures { IsTrue result → (self.entry.near ≡ other.entry.near) × (self.entry.heading ≡ other.entry.heading)
            × (self.entry.reach ≡ other.entry.reach) × (self.entry.onward ≡ other.entry.onward) }
    {
        if self.near != other.near || self.heading != other.heading {
            return false;
        }
        self.reach == other.reach && self.onward == other.onward
    }

    /// The ray further on, in the direction as far as `reach`, with `rest` still to go.
    fn moved(self, heading: Dir, reach: i128, rest: &'a [Run]) -> Ray<'a>
        ensures entries { entries_of result ≡ entries self.entry.near heading reach (trail self.entry.onward rest.now) }
        ensures rest { result.rest.now ≡ rest.now }
    {
        Ray {
            near: self.near,
            heading,
            reach,
            onward: self.onward,
            rest,
        }
    }

    /// Both rays after the turns that they have in common from the start on.
    pub(crate) fn past_common<'b>(self, other: Ray<'b>) -> (Ray<'a>, Ray<'b>)
        ensures { slice_cmp entry_cmp (entries_of self.entry) (entries_of other.entry)
            ≡ slice_cmp entry_cmp (entries_of result.0) (entries_of result.1) }
    {
        if !self.is_abreast(other) {
            return (self, other);
        }
        let start = Abreast {
            heading: self.heading,
            reach: self.reach,
            a: self.rest,
            b: other.rest,
        };
        let left = past_alike(self.onward, start);
        let a = self.moved(left.heading, left.reach, left.a);
        (a, other.moved(left.heading, left.reach, left.b))
    }

    /// The first entry, and the ray after it; no ray after a stop.
    pub(crate) fn split(self) -> (Entry, Option<Ray<'a>>)
        ensures entries { entries_of self.entry ≡ result.0 ∷ entries_left result.1 }
        ensures stop { (result.0 ≡ Entry.Stop) ↔ (result.1 ≡ None) }
        ensures shorter { MatchOption result.1 (Unit {0}) (λ next. length next.rest.now < length self.entry.rest.now) }
    {
        match self.turned() {
            Some((side, next)) => (Entry::at(self.near, self.reach, side), Some(next)),
            None => (Entry::Stop, None),
        }
    }

    /// The side to which the ray turns next, and the ray after the turn; none where it stops.
    fn turned(self) -> Option<(Side, Ray<'a>)>
        ensures { MatchOption result (entries_of self.entry ≡ Entry.Stop ∷ [])
            (λ next. (entries_of self.entry ≡ entry_of self.entry.near self.entry.reach next.0 ∷ entries_of next.1)
            × (length next.1.rest.now < length self.entry.rest.now)) }
    {
        let (run, rest) = next_on(self.rest, self.onward)?;
        let heading = heading_on(run, self.onward);
        let side = turn_to(self.heading, heading)?;
        Some((side, self.moved(heading, reach_in(heading, run), rest)))
    }
}
