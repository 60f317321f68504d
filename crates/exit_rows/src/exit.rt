//! Exits: where walks leave the lines.
ghost use Rattle.std.specs.Prelude.{◌≡◌, ◌≤ℤ◌, ◌↔◌, IsTrue};
ghost use Rattle.std.specs.Ordering.{is_lt};
ghost use Rattle.exit_rows.specs.Exits.{IsSmallKept, StandsFor, ahead_at, counted_at, undercuts};
ghost use Rattle.move_model.specs.Ahead.{ahead_cmp};
ghost use Rattle.plane_geom.specs.Point.{IsCoordinate};

use line_arena::CrossId;
use move_model::{Ahead, Place};
use plane_geom::Dir;
use std::cmp::Ordering;

/// A walk arrives at the place along the line with this number, and leaves the line there: by a
/// turn into `next`, or (`None`) by a stub, by doubling back, or by going straight on with more
/// checkpoints passed.
#[derive(Clone, Copy, Debug)]
pub struct Exit {
    pub place: Place,
    pub line: usize,
    pub next: Option<Dir>,
    /// What is ahead of the walk at the place.
    pub ahead: Ahead,
}

/// An exit that its line keeps, for one heading and one stage: it counts for the points of the line
/// from `from` on up to, and not with, its own, which is at `at`. Both are reaches in the heading.
#[derive(Clone, Copy, Debug)]
pub struct Kept {
    pub crossing: CrossId,
    pub from: i64,
    pub at: i64,
    pub next: Option<Dir>,
    /// What is ahead of the walk at the exit.
    pub ahead: Ahead,
}

/// Whether the first is less than the second.
fn is_less(first: Ahead, second: Ahead) -> bool
    ensures { result ≡ is_lt (ahead_cmp first second) }
{
    first < second
}

impl Kept {
    /// What is ahead by the exit from the point of its line at that reach, and no further than the
    /// exit.
    pub fn ahead_at(&self, reach: i64) -> Ahead
        requires small { IsSmallKept self.now }
        requires reach { IsCoordinate reach }
        requires before { reach ≤ℤ self.now.at }
        ensures { result ≡ ahead_at self.now reach }
    {
        let steps = (self.at - reach) as u64;
        Ahead {
            cost: self.ahead.cost + steps,
            ..self.ahead
        }
    }

    /// The same, if the exit counts there.
    pub fn counted_at(&self, reach: i64) -> Option<Ahead>
        requires small { IsSmallKept self.now }
        requires reach { IsCoordinate reach }
        ensures { result ≡ counted_at self.now reach }
    {
        if self.from <= reach && reach < self.at {
            Some(self.ahead_at(reach))
        } else {
            None
        }
    }

    /// Whether walks go on alike after both.
    fn goes_on_as(&self, other: &Kept) -> bool
        ensures { IsTrue result ↔ (self.now.next ≡ other.now.next) }
    {
        self.next == other.next
    }

    /// Whether the exit stands for the other one: it is no nearer, counts from no further on, and
    /// has less ahead there, or as much and goes on alike.
    pub fn stands_for(&self, other: &Kept) -> bool
        requires small { IsSmallKept self.now }
        requires other { IsSmallKept other.now }
        ensures { IsTrue result ↔ StandsFor self.now other.now }
    {
        if self.at < other.at || other.from < self.from {
            return false;
        }
        match self.ahead_at(other.at).cmp(&other.ahead) {
            Ordering::Less => true,
            Ordering::Equal => self.goes_on_as(other),
            Ordering::Greater => false,
        }
    }

    /// Whether the exit is nearer than the other one, counts from no further on, and has less
    /// ahead.
    pub fn undercuts(&self, other: &Kept) -> bool
        requires small { IsSmallKept self.now }
        requires other { IsSmallKept other.now }
        ensures { result ≡ undercuts self.now other.now }
    {
        self.from <= other.from
            && self.at < other.at
            && is_less(self.ahead, other.ahead_at(self.at))
    }
}
