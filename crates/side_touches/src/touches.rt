//! Which sides of solids touch each line of a list.
ghost use Rattle.std.specs.Prelude.{◌≡◌, ◌≢◌, ◌<◌, List, Some, IfOk, length, slice_get};
ghost use Rattle.plane_geom.specs.Along.{reach, way_of};
ghost use Rattle.plane_geom.specs.Point.{IsCoordinate, PointIsOnSheet};
ghost use Rattle.plane_geom.specs.declared.floor.Line.{Line};
ghost use Rattle.plane_geom.specs.declared.rect.Solid.{Solid};

use crate::extent::{Extent, last_place};
use crate::row::{Rows, push_lines};
use plane_geom::{Dir, Line, Point, Solid};
use std::alloc::{AllocError, Global};
use std::marker::Model;

/// How far on the point lies for one who goes in the direction: x to the East, y to the South, -x
/// to the West and -y to the North.
///
/// The point lies on the sheet.
pub fn reach(dir: Dir, at: Point) -> i64
    requires { PointIsOnSheet at }
    ensures value { result ≡ reach dir at }
    ensures within { IsCoordinate result }
{
    match dir {
        Dir::East => at.x,
        Dir::South => at.y,
        Dir::West => -at.x,
        Dir::North => -at.y,
    }
}

/// Which sides of solids touch each line of a list.
#[derive(Drop)]
pub struct Touches {
    lines: Vec<Rows>,
    extents: Vec<Extent>,
}

impl Model for Touches {
    ghost use Rattle.std.specs.Prelude.{List, All, map};
    ghost use Rattle.side_touches.specs.Touches.{LineTouches};

    ghost Value = { List LineTouches };

    ghost use Rattle.side_touches.specs.Rows.{AreRows, line_touches};

    ghost view = { λ t. map (line_touches t.extents.items) t.lines.items };

    ghost invariant = { λ t. All (AreRows t.extents.items) t.lines.items };
}

impl Touches {
    ghost use Rattle.side_touches.specs.Touches.{AreTouches, IsTouchedFrom, MayTouch};

    /// What touches each of the lines. The only error is out of memory.
    pub fn new(alloc: Global, lines: &[Line], solids: &[Solid]) -> Result<Touches, AllocError>
        ensures touches { IfOk result (AreTouches lines.now solids.now) }
        ensures count { IfOk result (λ touches. length touches ≡ length lines.now) }
    {
        let mut rows = Vec::new(alloc);
        let mut extents = Vec::new(alloc);
        push_lines(alloc, lines, solids, &mut rows, &mut extents)?;
        Ok(Touches {
            lines: rows,
            extents,
        })
    }

    /// The last place, by `reach`, from which a run along the line up to the place `at` touches a
    /// side from which a solid lies in the direction `side`. `None`: no such run does.
    ///
    /// `heading` is the direction of the run, along the line, and `side` is one of the two across
    /// it. Goes over the sides that touch the line in that direction.
    pub fn touched_from(&self, line: usize, side: Dir, heading: Dir, at: i64) -> Option<i64>
        requires line { line < length self.now }
        requires across { way_of side ≢ way_of heading }
        requires at { IsCoordinate at }
        ensures { (lines : List Line) (solids : List Solid) (l : Line) → AreTouches lines solids self.now → slice_get lines line ≡ Some l → IsTouchedFrom solids l side heading at result }
    {
        let row = self.lines[line].to(side);
        last_place(&self.extents[row.begin..row.end], heading, at)
    }

    /// Whether some run along the line up to the place `at`, by `reach`, touches a side from which
    /// a solid lies in the direction `side`. Takes constant time.
    ///
    /// `heading` is the direction of the run, along the line, and `side` is one of the two across
    /// it.
    pub fn may_touch(&self, line: usize, side: Dir, heading: Dir, at: i64) -> bool
        requires line { line < length self.now }
        requires across { way_of side ≢ way_of heading }
        requires at { IsCoordinate at }
        ensures { (lines : List Line) (solids : List Solid) (l : Line) → AreTouches lines solids self.now → slice_get lines line ≡ Some l → MayTouch solids l side heading at result }
    {
        self.lines[line].to(side).hull.begins_by(heading, at)
    }
}
