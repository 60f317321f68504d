//! The first segment that is neither vertical nor horizontal.
ghost use Rattle.std.specs.Prelude.{◌≤◌, length, MatchOption};
ghost use Rattle.walk_model.specs.Line.{AreStraight};
ghost use Rattle.route_check.specs.Verdict.{FirstSlanted};

use plane_geom::Point;

/// The first segment of the line that is neither vertical nor horizontal, counted from 1.
pub fn first_slanted(first: Point, rest: &[Point]) -> Option<u32>
    requires { length rest.now ≤ 40000000 }
    ensures { MatchOption result (AreStraight first rest.now) (FirstSlanted first rest.now) }
{
    let mut from = first;
    for (i, &to) in rest.iter().enumerate() {
        if from.x != to.x && from.y != to.y {
            return Some(i as u32 + 1);
        }
        from = to;
    }
    None
}
