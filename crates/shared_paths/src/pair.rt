//! Pairs of runs of two routes, and where they go on.
ghost use Rattle.std.specs.Prelude.{◌≡◌, ◌<◌, ◌↔◌, IsTrue, length, true};
ghost use Rattle.segment_order.specs.Run.{run_at};
ghost use Rattle.segment_order.specs.Ray.{reach_in};
ghost use Rattle.shared_paths.specs.Pairs.{GoesOn, IsPair, first_entry, next_index};
ghost use Rattle.shared_paths.specs.Pairs.{next_pair, outward};
ghost use Rattle.shared_paths.specs.Paths.{end_at, other_side};
ghost use Rattle.shared_paths.specs.Views.{EndsAt, IsSomeRoute, entry_towards, view};

use crate::path::End;
use plane_geom::Dir;
use segment_order::{Entry, Run, Side, first_entry, near_side};
use std::cmp::Ordering;

/// A run of each of two routes, by their indices.
#[derive(Clone, Copy, Debug, PartialEq, Eq)]
pub(crate) struct Pair {
    pub(crate) a: usize,
    pub(crate) b: usize,
}

/// Two routes, of which the first is followed.
#[derive(Clone, Copy)]
pub(crate) struct Routes<'a> {
    pub(crate) a: &'a [Run],
    pub(crate) b: &'a [Run],
}

/// The other hand.
fn other_side(side: Side) -> Side
    ensures { result ≡ other_side side }
{
    match side {
        Side::Left => Side::Right,
        Side::Right => Side::Left,
    }
}

/// The index of the run that follows the one with this index in the direction.
fn next_index(route: &[Run], index: usize, dir: Dir) -> usize
    requires { index < length route.now }
    ensures { result ≡ next_index route.now index dir }
{
    if route[index].heading == dir {
        index + 1
    } else {
        index.saturating_sub(1)
    }
}

/// Whether both runs end at one coordinate in the direction.
fn ends_alike(dir: Dir, one: &Run, other: &Run) -> bool
    ensures { IsTrue result ↔ (reach_in dir one.now ≡ reach_in dir other.now) }
{
    match dir {
        Dir::East | Dir::South => one.hi == other.hi,
        Dir::West | Dir::North => one.lo == other.lo,
    }
}

/// The direction in which the route goes on that leaves the run with this index in the direction;
/// none at its end.
fn heading_past(route: &[Run], index: usize, dir: Dir) -> Option<Dir>
    requires { index < length route.now }
    ensures { first_entry route.now index dir ≡ entry_towards (run_at route.now index) dir result }
{
    let run = &route[index];
    let place = run.place as usize;
    if run.heading == dir {
        let next = route.get(place)?;
        Some(next.heading)
    } else {
        let before = &route[..place.saturating_sub(1).min(route.len())];
        let next = before.last()?;
        Some(next.heading.opposite())
    }
}

impl Routes<'_> {
    /// The direction in which the first route leaves the pair, ahead or back.
    fn outward(self, ahead: bool, pair: Pair) -> Dir
        requires { pair.a < length self.a.now }
        ensures { result ≡ outward self.entry.a.now ahead (view pair) }
    {
        let heading = self.a[pair.a].heading;
        if ahead { heading } else { heading.opposite() }
    }

    /// What both routes do first who leave the pair, ahead or back.
    fn entries(self, pair: Pair, dir: Dir) -> (Entry, Entry)
        requires a { pair.a < length self.a.now }
        requires b { pair.b < length self.b.now }
        ensures a { result.0 ≡ first_entry self.entry.a.now pair.a dir }
        ensures b { result.1 ≡ first_entry self.entry.b.now pair.b dir }
    {
        (
            first_entry(&self.a[pair.a], self.a, dir),
            first_entry(&self.b[pair.b], self.b, dir),
        )
    }

    /// Whether both routes go on from the pair to one other, ahead or back.
    pub(crate) fn goes_on(self, ahead: bool, pair: Pair) -> bool
        requires a { pair.a < length self.a.now }
        requires b { pair.b < length self.b.now }
        ensures { IsTrue result ↔ GoesOn self.entry.a.now self.entry.b.now ahead (view pair) }
    {
        let dir = self.outward(ahead, pair);
        if !ends_alike(dir, &self.a[pair.a], &self.b[pair.b]) {
            return false;
        }
        match (
            heading_past(self.a, pair.a, dir),
            heading_past(self.b, pair.b, dir),
        ) {
            (Some(one), Some(other)) => one == other && one.way() != dir.way(),
            _ => false,
        }
    }

    /// The pair to which the pair goes on ahead.
    pub(crate) fn next(self, pair: Pair) -> Pair
        requires a { pair.a < length self.a.now }
        requires b { pair.b < length self.b.now }
        ensures { view result ≡ next_pair self.entry.a.now self.entry.b.now true (view pair) }
    {
        let dir = self.outward(true, pair);
        Pair {
            a: next_index(self.a, pair.a, dir),
            b: next_index(self.b, pair.b, dir),
        }
    }

    /// The end of a path at the pair, ahead or back.
    pub(crate) fn end(self, ahead: bool, pair: Pair) -> End
        requires a { pair.a < length self.a.now }
        requires b { pair.b < length self.b.now }
        ensures { result ≡ end_at self.entry.a.now self.entry.b.now ahead (view pair) }
    {
        let dir = self.outward(ahead, pair);
        let (one, other) = self.entries(pair, dir);
        let near = if ahead {
            near_side(dir)
        } else {
            other_side(near_side(dir))
        };
        match one.compare(other) {
            Ordering::Less => End::Parts(near),
            Ordering::Equal => End::Tie,
            Ordering::Greater => End::Parts(other_side(near)),
        }
    }

    /// The last pair of the path that leads ahead from the pair.
    pub(crate) fn last(self, first: Pair) -> Pair
        requires a { IsSomeRoute self.a.now }
        requires b { IsSomeRoute self.b.now }
        requires first { IsPair self.a.now self.b.now (view first) }
        ensures path { EndsAt self.entry.a.now self.entry.b.now (view first) (view result) }
        ensures pair { IsPair self.entry.a.now self.entry.b.now (view result) }
    {
        let mut last = first;
        for run in first.a..self.a.len() {
            if !self.goes_on(true, last) {
                return last;
            }
            last = self.next(last);
        }
        last
    }
}
