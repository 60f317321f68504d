//! The sides of solids that runs of one way meet when they move.
ghost use Rattle.std.specs.Prelude.{◌≡◌, All, IfOk};
ghost use Rattle.plane_geom.specs.Floor.{IsSolid};
ghost use Rattle.channel_bundles.specs.Walls.{AreWalls, AreWallsTo, wall_of};

use bumpalo::Bump;
use plane_geom::{Dir, Solid, Way};
use std::alloc::AllocError;

/// A side of a solid: its coordinate across the way, and how far it extends along the way.
#[derive(Clone, Copy)]
pub(crate) struct Wall {
    pub(crate) at: i64,
    pub(crate) lo: i64,
    pub(crate) hi: i64,
}

/// The walls of the solids that runs of one way meet on their way to greater coordinates, and those
/// that they meet on their way to lesser ones. Each list is by rising coordinate.
#[derive(Drop)]
pub(crate) struct Walls<'s, 'a> {
    pub(crate) solids: &'s [Solid],
    pub(crate) onward: Vec<Wall, &'a Bump>,
    pub(crate) backward: Vec<Wall, &'a Bump>,
}

/// The side from which the solid lies in the direction.
fn wall_of(dir: Dir, solid: &Solid) -> Wall
    ensures { result ≡ wall_of dir solid.now }
{
    let rect = solid.rect;
    let (at, lo, hi) = match dir {
        Dir::East => (rect.left, rect.top, rect.bottom),
        Dir::South => (rect.top, rect.left, rect.right),
        Dir::West => (rect.right, rect.top, rect.bottom),
        Dir::North => (rect.bottom, rect.left, rect.right),
    };
    Wall { at, lo, hi }
}

/// The sides from which the solids lie in the direction, by rising coordinate.
fn walls_to<'a>(
    bump: &'a Bump,
    solids: &[Solid],
    dir: Dir,
) -> Result<Vec<Wall, &'a Bump>, AllocError>
    ensures { IfOk result (λ walls. AreWallsTo dir solids.now walls.items) }
{
    let mut walls = Vec::with_capacity(bump, solids.len())?;
    for solid in solids {
        walls.push(wall_of(dir, solid))?;
    }
    walls.sort_unstable_by_key(|wall| wall.at);
    Ok(walls)
}

impl<'s, 'a> Walls<'s, 'a> {
    /// The walls of the solids for runs of the way.
    pub(crate) fn new(
        bump: &'a Bump,
        solids: &'s [Solid],
        way: Way,
    ) -> Result<Walls<'s, 'a>, AllocError>
        requires { All IsSolid solids.now }
        ensures walls { IfOk result (AreWalls way) }
        ensures solids { IfOk result (λ walls. walls.solids.now ≡ solids.now) }
    {
        let (greater, lesser) = match way {
            Way::Vertical => (Dir::East, Dir::West),
            Way::Horizontal => (Dir::South, Dir::North),
        };
        Ok(Walls {
            solids,
            onward: walls_to(bump, solids, greater)?,
            backward: walls_to(bump, solids, lesser)?,
        })
    }
}
