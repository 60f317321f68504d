//! The two sides, left and right, of one who travels.
ghost use Rattle.std.specs.Prelude.{◌≡◌};
ghost use Rattle.segment_order.specs.Side.{near_side, turn_to};

use plane_geom::Dir;

/// A side, left or right, of one who travels.
#[derive(Clone, Copy, Debug, PartialEq, Eq)]
pub enum Side {
    Left,
    Right,
}

/// The side to which one turns from one direction to another; none if one goes on or doubles back.
pub(crate) fn turn_to(from: Dir, to: Dir) -> Option<Side>
    ensures { result ≡ turn_to from to }
{
    match (from, to) {
        (Dir::East, Dir::North)
        | (Dir::South, Dir::East)
        | (Dir::West, Dir::South)
        | (Dir::North, Dir::West) => Some(Side::Left),
        (Dir::East, Dir::South)
        | (Dir::South, Dir::West)
        | (Dir::West, Dir::North)
        | (Dir::North, Dir::East) => Some(Side::Right),
        _ => None,
    }
}

/// The side with the smaller coordinate across, for one who travels in the direction.
pub fn near_side(dir: Dir) -> Side
    ensures { result ≡ near_side dir }
{
    match dir {
        Dir::East | Dir::North => Side::Left,
        Dir::South | Dir::West => Side::Right,
    }
}
