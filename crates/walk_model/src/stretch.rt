//! Equal steps in a row.
ghost use Rattle.std.specs.Prelude.{ℕ, ◌≡◌, ◌+◌, ◌-◌, ◌^◌, ◌<◌, ◌≤◌, ◌↔◌, length, max, min};
ghost use Rattle.plane_geom.specs.Point.{IsStraight, PointIsOnSheet, distance, forward};

use plane_geom::{Dir, Point};

/// Equal steps in a row, from the walk's point number `number` on.
#[derive(Clone, Copy, Debug)]
pub struct Stretch {
    pub number: u64,
    pub start: Point,
    pub dir: Dir,
    pub steps: u64,
    ghost starts_within: { PointIsOnSheet start },
    ghost ends_within: { PointIsOnSheet (forward dir steps start) },
    ghost counted: { number + steps < 2 ^ 64 },
}

impl Stretch {
    ghost use Rattle.walk_model.specs.Legal.{PassesMost};
    ghost use Rattle.walk_model.specs.Stretch.{GoesAlong, IsBetween, IsPointOf};
    ghost use Rattle.walk_model.specs.Walk.{Walk};

    /// The straight way from one point to another.
    pub fn between(number: u64, from: Point, to: Point) -> Stretch
        requires from_within { PointIsOnSheet from }
        requires to_within { PointIsOnSheet to }
        requires straight { IsStraight from to }
        requires counted { number + distance from to < 2 ^ 64 }
        ensures { IsBetween result number from to }
    {
        Stretch {
            number,
            start: from,
            dir: from.heading(to),
            steps: from.distance(to),
        }
    }

    /// The number of the point in the walk, if it is on the stretch.
    fn number_of(&self, point: Point) -> Option<u64>
        ensures { (k : ℕ) → (result ≡ Some k) ↔ IsPointOf self.now k point }
    {
        let across = self.start.x.abs_diff(point.x);
        let along = self.start.y.abs_diff(point.y);
        // Of a point on the stretch, one of the two is 0.
        let steps = across.max(along);
        if steps > self.steps {
            return None;
        }
        let there = self.start.forward(self.dir, steps);
        (there == point).then_some(self.number + steps)
    }

    /// The number of checkpoints, from the first on, that the stretch passes in order between the
    /// walk's points number `from` and `to`.
    pub fn passed_between(&self, from: u64, to: u64, via: &[Point]) -> usize
        ensures at_most { result ≤ length via.now }
        ensures most { (w : Walk) → GoesAlong w self.now →
            PassesMost w (max from self.now.number)
            (min to (self.now.number + self.now.steps)) via.now result }
    {
        let mut place = from.max(self.number);
        for (passed, &checkpoint) in via.iter().enumerate() {
            let Some(number) = self.number_of(checkpoint) else {
                return passed;
            };
            if number < place || to < number {
                return passed;
            }
            place = number;
        }
        via.len()
    }
}
