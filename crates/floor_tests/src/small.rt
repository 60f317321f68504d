//! Floors made of plain numbers, which the calls on floors accept.
ghost use Rattle.std.specs.Prelude.{◌≡◌, IfOk, filter_map, map, take};
ghost use Rattle.plane_geom.specs.Floor.{IsFloor};
ghost use Rattle.floor_tests.specs.Small.{clamped, clamped_point, small_floor, solid_of_sides, tile};

use plane_geom::{Floor, Point, Points, Rect, SHEET_END, SHEET_START, Solid, Solids};
use std::alloc::{AllocError, Global};

/// Left, top, right and bottom, in thousandths.
pub(crate) type Sides = (i64, i64, i64, i64);

// The greatest number of rectangles, and of anchors, that are read.
const MOST: usize = 256;

/// The floor of the rectangles that have an inside, in their order, and of the anchors, each by its
/// x and y.
///
/// Only the first 256 of each are read. A number beyond the sheet stands for the nearest end of the
/// sheet, and a rectangle without an inside on the sheet is left out. Each solid is of node 0. The
/// only error is out of memory.
pub(crate) fn small_floor(
    alloc: Global,
    rects: &[Sides],
    anchors: &[(i64, i64)],
) -> Result<Floor, AllocError>
    ensures floor { IfOk result (λ f. f ≡ small_floor rects.now anchors.now) }
    ensures sound { IfOk result IsFloor }
{
    let solids = solids_of(alloc, first(rects))?;
    let anchors = points_of(alloc, first(anchors))?;
    Ok(Floor {
        solids: Solids(solids),
        anchors: Points::from_vec(anchors),
    })
}

/// One of many rectangles that do not touch, in rows of sixteen and of different sizes.
///
/// Its left is 40 times its place in the row, its top 30 times its row; it is 20 to 26 wide and 15
/// to 19 high.
pub(crate) fn tile(number: u8) -> Sides
    ensures { result ≡ tile number }
{
    let (left, top) = (i64::from(number % 16) * 40, i64::from(number / 16) * 30);
    let (width, height) = (20 + i64::from(number % 7), 15 + i64::from(number % 5));
    (left, top, left + width, top + height)
}

/// The first 256, or all if there are fewer.
fn first<T>(all: &[T]) -> &[T]
    ensures { result.now ≡ take 256 all.now }
{
    let (first, _) = all.split_at(MOST.min(all.len()));
    first
}

fn solids_of(alloc: Global, rects: &[Sides]) -> Result<Vec<Solid>, AllocError>
    ensures { IfOk result (λ v. v.items ≡ filter_map solid_of_sides rects.now) }
{
    let mut solids = Vec::new(alloc);
    for sides in rects {
        if let Some(solid) = solid(*sides) {
            solids.push(solid)?;
        }
    }
    Ok(solids)
}

/// The solid, if it has an inside.
fn solid(sides: Sides) -> Option<Solid>
    ensures { result ≡ solid_of_sides sides }
{
    let (left, top) = (clamped(sides.0), clamped(sides.1));
    let (right, bottom) = (clamped(sides.2), clamped(sides.3));
    let rect = Rect {
        left,
        top,
        right,
        bottom,
    };
    if left < right && top < bottom {
        Some(Solid { node: 0, rect })
    } else {
        None
    }
}

fn points_of(alloc: Global, places: &[(i64, i64)]) -> Result<Vec<Point>, AllocError>
    ensures { IfOk result (λ v. v.items ≡ map clamped_point places.now) }
{
    places.iter().map(|place| point(*place)).collect(alloc)
}

fn point(place: (i64, i64)) -> Point
    ensures { result ≡ clamped_point place }
{
    Point {
        x: clamped(place.0),
        y: clamped(place.1),
    }
}

/// The number, or the nearest end of the sheet.
fn clamped(z: i64) -> i64
    ensures { result ≡ clamped z }
{
    z.max(SHEET_START).min(SHEET_END)
}

/// 256 rectangles in rows of sixteen: the given one first, followed by tiles.
pub(crate) fn tiles_behind(alloc: Global, first: Sides) -> Result<Vec<Sides>, AllocError> {
    let mut rects = Vec::new(alloc);
    rects.push(first)?;
    for number in 1..=255u8 {
        rects.push(tile(number))?;
    }
    Ok(rects)
}
