//! The rows of extents of each line.
ghost use Rattle.std.specs.Prelude.{◌≡◌, ◌↔◌, ◌≤ℤ◌, [], List, AllPairs, Any, Contains, IfOk, OnOk, Some};
ghost use Rattle.plane_geom.specs.declared.rect.Solid.{Solid};
ghost use Rattle.side_touches.specs.declared.extent.Extent.{Extent};
ghost use Rattle.side_touches.specs.Rows.{AreAllRows, AreRowsOf, GoesOn, IsRow, in_row, lesser_side, row_to};
ghost use Rattle.side_touches.specs.Sides.{AreSides, extent_met};

use crate::extent::{Extent, hull};
use crate::side::{Side, Sides, at_coordinate, push_met};
use plane_geom::{Dir, Line, Solid, Way};
use std::alloc::{AllocError, Global};

/// The extents of the sides that touch a line from one direction: those from index `begin` up to,
/// and not with, `end`.
#[derive(Clone, Copy)]
pub struct Row {
    pub begin: usize,
    pub end: usize,
    pub hull: Extent,
}

/// The rows of a line: of the solids at lesser coordinates, and of those at greater ones.
#[derive(Clone, Copy)]
pub struct Rows {
    pub lesser: Row,
    pub greater: Row,
}

impl Rows {
    /// The row of the solids that lie in the direction.
    pub fn to(&self, side: Dir) -> Row
        ensures { result ≡ row_to side self.now }
    {
        match side {
            Dir::East | Dir::South => self.greater,
            Dir::West | Dir::North => self.lesser,
        }
    }
}

/// Where the sides of the line before were found, so that those of the next one are found at once.
#[derive(Clone, Copy)]
struct Near {
    lesser: usize,
    greater: usize,
}

/// Appends the rows of the lines, and their extents. The only error is out of memory.
pub fn push_lines(
    alloc: Global,
    lines: &[Line],
    solids: &[Solid],
    rows: &mut Vec<Rows>,
    extents: &mut Vec<Extent>,
) -> Result<(), AllocError>
    requires { rows.old.items ≡ [] }
    ensures { OnOk result (AreAllRows solids.now lines.now extents.new.items rows.new.items) }
{
    let sides = Sides::new(alloc, solids)?;
    push_all(lines, &sides, rows, extents)
}

/// Appends the rows of the lines, and their extents.
fn push_all(
    lines: &[Line],
    sides: &Sides,
    rows: &mut Vec<Rows>,
    extents: &mut Vec<Extent>,
) -> Result<(), AllocError>
    requires empty { rows.old.items ≡ [] }
    requires sides { (solids : List Solid) × AreSides solids sides.now }
    ensures { OnOk result ((solids : List Solid) → AreSides solids sides.now → AreAllRows solids lines.now extents.new.items rows.new.items) }
{
    let mut near = Near {
        lesser: 0,
        greater: 0,
    };
    for line in lines {
        rows.push(push_rows(line, sides, &mut near, extents)?)?;
    }
    Ok(())
}

/// Appends the extents of the sides that touch the line, and gives their rows.
fn push_rows(
    line: &Line,
    sides: &Sides,
    near: &mut Near,
    extents: &mut Vec<Extent>,
) -> Result<Rows, AllocError>
    requires { (solids : List Solid) × AreSides solids sides.now }
    ensures goes_on { OnOk result (GoesOn extents.old.items extents.new.items) }
    ensures rows { IfOk result (λ rows. (solids : List Solid) → AreSides solids sides.now → AreRowsOf solids extents.new.items line.now rows) }
{
    let side = lesser_side(line.way);
    Ok(Rows {
        lesser: push_row(line, sides.to(side), &mut near.lesser, extents)?,
        greater: push_row(line, sides.to(side.opposite()), &mut near.greater, extents)?,
    })
}

/// The side from which the solids lie at lesser coordinates, of lines of the way.
fn lesser_side(way: Way) -> Dir
    ensures { result ≡ lesser_side way }
{
    match way {
        Way::Vertical => Dir::West,
        Way::Horizontal => Dir::North,
    }
}

/// Appends the extents of those of the sides that touch the line, which runs along them, and gives
/// their row.
fn push_row(
    line: &Line,
    sides: &[Side],
    near: &mut usize,
    extents: &mut Vec<Extent>,
) -> Result<Row, AllocError>
    requires { AllPairs (λ a b. a.at ≤ℤ b.at) sides.now }
    ensures goes_on { OnOk result (GoesOn extents.old.items extents.new.items) }
    ensures row { IfOk result (IsRow extents.new.items) }
    ensures members { IfOk result (λ row. (x : Extent) → Contains (in_row extents.new.items row) x ↔ Any (λ s. (s.at ≡ line.now.at) × (extent_met line.now s ≡ Some x)) sides.now) }
{
    let begin = extents.len();
    push_met(at_coordinate(sides, line.at, near), line, extents)?;
    Ok(Row {
        begin,
        end: extents.len(),
        hull: hull(&extents[begin..]),
    })
}
