//! The closed sides of solids, by the directions in which the solids lie from them.
ghost use Rattle.std.specs.Prelude.{◌≡◌, ◌≢◌, true, false, ◌↔◌, ◌≤◌, ◌≤ℤ◌, ◌<ℤ◌, ◌++◌, All, AllPairs, Contains, IfOk, OnOk, drop, length, take};
ghost use Rattle.std.specs.List.{filter_map};
ghost use Rattle.side_touches.specs.declared.side.Side.{Side};
ghost use Rattle.side_touches.specs.Sides.{AreSides, AreSidesTo, extent_met, side_of, sides_to};

use crate::extent::Extent;
use plane_geom::{Dir, Line, Rect, Solid};
use std::alloc::{AllocError, Global};

/// A closed side, on the whole line at the coordinate.
#[derive(Clone, Copy)]
pub struct Side {
    pub at: i64,
    pub extent: Extent,
}

/// The sides of solids, by the directions in which the solids lie from them, each by rising
/// coordinate.
#[derive(Drop)]
pub struct Sides {
    pub east: Vec<Side>,
    pub south: Vec<Side>,
    pub west: Vec<Side>,
    pub north: Vec<Side>,
}

impl Sides {
    /// The sides of the solids. The only error is out of memory.
    pub fn new(alloc: Global, solids: &[Solid]) -> Result<Sides, AllocError>
        ensures { IfOk result (AreSides solids.now) }
    {
        Ok(Sides {
            east: sorted(alloc, Dir::East, solids)?,
            south: sorted(alloc, Dir::South, solids)?,
            west: sorted(alloc, Dir::West, solids)?,
            north: sorted(alloc, Dir::North, solids)?,
        })
    }

    /// The sides from which the solids lie in the direction.
    pub fn to(&self, side: Dir) -> &[Side]
        ensures { result.now ≡ sides_to side self.now }
    {
        match side {
            Dir::East => self.east.as_slice(),
            Dir::South => self.south.as_slice(),
            Dir::West => self.west.as_slice(),
            Dir::North => self.north.as_slice(),
        }
    }
}

/// The sides from which the solids lie in the direction, by rising coordinate.
fn sorted(alloc: Global, side: Dir, solids: &[Solid]) -> Result<Vec<Side>, AllocError>
    ensures { IfOk result (λ sides. AreSidesTo side solids.now sides.items) }
{
    let mut sides = Vec::new(alloc);
    for solid in solids {
        sides.push(side_of(side, &solid.rect))?;
    }
    sides.sort_unstable_by_key(|side| side.at);
    Ok(sides)
}

/// The side of the rectangle from which the rectangle lies in the direction.
fn side_of(side: Dir, rect: &Rect) -> Side
    ensures { result ≡ side_of side rect.now }
{
    let (at, lo, hi) = match side {
        Dir::East => (rect.left, rect.top, rect.bottom),
        Dir::South => (rect.top, rect.left, rect.right),
        Dir::West => (rect.right, rect.top, rect.bottom),
        Dir::North => (rect.bottom, rect.left, rect.right),
    };
    Side {
        at,
        extent: Extent { lo, hi },
    }
}

/// Whether the side stands before the coordinate.
fn is_before(side: &Side, at: i64) -> bool
    ensures before { result ≡ true → side.now.at <ℤ at }
    ensures rest { result ≡ false → at ≤ℤ side.now.at }
{
    side.at < at
}

/// Whether the side stands at the coordinate.
fn is_at(side: &Side, at: i64) -> bool
    ensures here { result ≡ true → side.now.at ≡ at }
    ensures beyond { result ≡ false → side.now.at ≢ at }
{
    side.at == at
}

/// The place `near`, if the sides before it stand before the coordinate, and else 0.
fn begin_near(sides: &[Side], at: i64, near: usize) -> usize
    requires { AllPairs (λ a b. a.at ≤ℤ b.at) sides.now }
    ensures bound { result ≤ length sides.now }
    ensures before { All (λ s. s.at <ℤ at) (take result sides.now) }
{
    if near > 0 && near <= sides.len() && is_before(&sides[near - 1], at) {
        near
    } else {
        0
    }
}

/// How many of the sides, which rise by coordinate, stand before the coordinate. Looks on from the
/// place `near`, or from the first side where that many are too many.
fn count_before(sides: &[Side], at: i64, near: usize) -> usize
    requires { AllPairs (λ a b. a.at ≤ℤ b.at) sides.now }
    ensures before { All (λ s. s.at <ℤ at) (take result sides.now) }
    ensures rest { All (λ s. at ≤ℤ s.at) (drop result sides.now) }
    ensures bound { result ≤ length sides.now }
{
    for place in begin_near(sides, at, near)..sides.len() {
        if !is_before(&sides[place], at) {
            return place;
        }
    }
    sides.len()
}

/// How many of the sides, which rise from the coordinate on, stand at the coordinate.
fn count_at(sides: &[Side], at: i64) -> usize
    requires order { AllPairs (λ a b. a.at ≤ℤ b.at) sides.now }
    requires from { All (λ s. at ≤ℤ s.at) sides.now }
    ensures here { All (λ s. s.at ≡ at) (take result sides.now) }
    ensures beyond { All (λ s. s.at ≢ at) (drop result sides.now) }
    ensures bound { result ≤ length sides.now }
{
    for place in 0..sides.len() {
        if !is_at(&sides[place], at) {
            return place;
        }
    }
    sides.len()
}

/// The part of the sides, which rise by coordinate, that stands at the coordinate, and begins at the
/// new `near`. Looks on from the old one, so coordinates that rise from call to call need no search.
pub fn at_coordinate<'a>(sides: &'a [Side], at: i64, near: &mut usize) -> &'a [Side]
    requires { AllPairs (λ a b. a.at ≤ℤ b.at) sides.now }
    ensures { (x : Side) → Contains result.now x ↔ Contains sides.now x × (x.at ≡ at) }
{
    *near = count_before(sides, at, *near);
    let (_, rest) = sides.split_at(*near);
    let (here, _) = rest.split_at(count_at(rest, at));
    here
}

/// Appends the extents of those of the sides, which are on the line's whole line, that share a
/// point with the line.
pub fn push_met(here: &[Side], line: &Line, extents: &mut Vec<Extent>) -> Result<(), AllocError>
    ensures { OnOk result (extents.new.items ≡ extents.old.items ++ filter_map (extent_met line.now) here.now) }
{
    for side in here {
        if side.extent.is_met_by(line) {
            extents.push(side.extent)?;
        }
    }
    Ok(())
}
