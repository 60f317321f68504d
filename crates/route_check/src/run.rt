//! The equal steps with which a line begins and ends.
ghost use Rattle.std.specs.Prelude.{length};
ghost use Rattle.walk_model.specs.Line.{walk_through};
ghost use Rattle.route_check.specs.Line.{IsLineFrom};
ghost use Rattle.route_check.specs.Run.{IsFirstRun, IsLastRun};

use plane_geom::{Dir, Point};

/// A number of unit steps in one direction.
#[derive(Clone, Copy)]
pub struct Run {
    pub heading: Dir,
    pub length: u64,
}

const NO_STEPS: Run = Run {
    heading: Dir::East,
    length: 0,
};

/// The steps at the beginning of the line that go in one direction.
pub fn first_run(first: Point, rest: &[Point]) -> Run
    requires line { IsLineFrom first rest.now }
    ensures { IsFirstRun (walk_through first rest.now) result }
{
    let mut run = NO_STEPS;
    let mut from = first;
    for &to in rest {
        let heading = from.heading(to);
        let length = from.distance(to);
        if length > 0 {
            if run.length > 0 && heading != run.heading {
                return run;
            }
            run = Run {
                heading,
                length: run.length + length,
            };
        }
        from = to;
    }
    run
}

/// The steps at the end of the line that go in one direction.
pub fn last_run(first: Point, rest: &[Point]) -> Run
    requires line { IsLineFrom first rest.now }
    ensures { let w = walk_through first rest.now in IsLastRun w (length w.steps) result }
{
    let mut run = NO_STEPS;
    let mut from = first;
    for &to in rest {
        let heading = from.heading(to);
        let length = from.distance(to);
        if length > 0 {
            let before = if heading == run.heading {
                run.length
            } else {
                0
            };
            run = Run {
                heading,
                length: before + length,
            };
        }
        from = to;
    }
    run
}
