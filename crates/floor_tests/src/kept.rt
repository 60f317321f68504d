//! The worked rows of kept lines, one whole line and parts of the sheet against all, and a floor of
//! many solids.
ghost use Rattle.plane_geom.specs.Floor.{IsFloor};

use crate::small::{Sides, small_floor};
use plane_geom::{Floor, Line, Rect, SHEET_END, SHEET_START, Way};
use std::alloc::{AllocError, Global};
use std::test::Fail;
use sweep_lines::{all_lines, lines_at, lines_near};

/// The solids and the anchors of a floor.
type Plain<'a> = (&'a [Sides], &'a [(i64, i64)]);

/// The way of a line, its coordinate, and where it begins and ends.
type Piece = (Way, i64, i64, i64);

/// Which of the kept lines are looked for.
#[derive(Clone, Copy)]
enum Which {
    All,
    /// Those of this way at the coordinate.
    At(Way, i16),
    /// Those near the rectangle.
    Near(Sides),
}

const UP: Way = Way::Vertical;

const LEVEL: Way = Way::Horizontal;

const START: i64 = SHEET_START;

const END: i64 = SHEET_END;

/// Two solids with sides on one whole line, and a third that stands between them.
const ROW: [Sides; 3] = [(0, 0, 10, 10), (0, 20, 10, 30), (-5, 12, 20, 18)];

const ROW_ANCHORS: [(i64, i64); 3] = [(5, 11), (7, 40), (3, 15)];

/// A corridor of width 0.
const CORRIDOR: [Sides; 2] = [(0, 0, 10, 10), (0, 10, 10, 20)];

/// The left side of the first solid is free only between the two others.
const BETWEEN: [Sides; 3] = [
    (0, 0, 40_000, 100_000),
    (-40_000, -20_000, 30_000, 60_000),
    (-50_000, 70_000, 30_000, 120_000),
];

/// Equal solids, one within them, and one that touches them.
const EQUAL: [Sides; 4] = [
    (0, 0, 30, 30),
    (0, 0, 30, 30),
    (10, 10, 20, 20),
    (30, 5, 40, 15),
];

/// A name, a floor, and which of its lines are these.
type Kept = (&'static str, Plain<'static>, Which, &'static [Piece]);

const KEPT: [Kept; 5] = [
    (
        "a side without a free corner",
        (&BETWEEN, &[]),
        Which::At(UP, 0),
        &[(UP, 0, 60_000, 70_000)],
    ),
    (
        "an anchor in a corridor",
        (&CORRIDOR, &[(5, 10)]),
        Which::All,
        &[
            (UP, 0, START, END),
            (UP, 5, 10, 10),
            (UP, 10, START, END),
            (LEVEL, 0, START, END),
            (LEVEL, 10, START, END),
            (LEVEL, 20, START, END),
        ],
    ),
    (
        "equal solids",
        (&EQUAL, &[]),
        Which::All,
        &[
            (UP, 0, START, END),
            (UP, 30, START, END),
            (UP, 40, START, END),
            (LEVEL, 0, START, END),
            (LEVEL, 5, 30, END),
            (LEVEL, 15, 30, END),
            (LEVEL, 30, START, END),
        ],
    ),
    (
        "anchors inside a solid, on its corner, and at the sheet's corner",
        (&[(0, 0, 10, 10)], &[(5, 5), (0, 0), (END, START)]),
        Which::All,
        &[
            (UP, 0, START, END),
            (UP, 10, START, END),
            (UP, END, START, END),
            (LEVEL, START, START, END),
            (LEVEL, 0, START, END),
            (LEVEL, 10, START, END),
        ],
    ),
    (
        "pieces near a rectangle",
        (&ROW, &ROW_ANCHORS),
        Which::Near((0, 12, 5, 12)),
        &[
            (UP, 0, START, 12),
            (UP, 0, 18, END),
            (UP, 5, 10, 12),
            (LEVEL, 12, START, END),
        ],
    ),
];

fn is_piece(line: &Line, piece: &Piece) -> bool {
    let (way, at, lo, hi) = *piece;
    line.is_same(&Line { way, at, lo, hi })
}

/// Whether the lines are these.
fn are_pieces(lines: &[Line], want: &[Piece]) -> bool {
    for (line, piece) in lines.iter().zip(want) {
        if !is_piece(line, piece) {
            return false;
        }
    }
    lines.len() == want.len()
}

fn lines_of(alloc: Global, floor: &Floor, which: Which) -> Result<Vec<Line>, AllocError>
    requires { IsFloor floor.now }
{
    match which {
        Which::All => all_lines(alloc, floor),
        Which::At(way, at) => lines_at(alloc, floor, way, i64::from(at)),
        Which::Near(sides) => lines_near(alloc, floor, &rect_of(sides)),
    }
}

fn kept(alloc: Global, floor: Plain<'_>, which: Which) -> Result<Vec<Line>, AllocError> {
    let floor = small_floor(alloc, floor.0, floor.1)?;
    lines_of(alloc, &floor, which)
}

/// Whether these of the kept lines are the row's.
fn keeps(alloc: Global, row: &Kept) -> Result<bool, AllocError> {
    let lines = kept(alloc, row.1, row.2)?;
    Ok(are_pieces(lines.as_slice(), row.3))
}

#[test]
fn keeps_pieces(rt: HostRuntime) {
    for row in &KEPT {
        let found = keeps(rt.alloc(), row);
        assert!(rt; matches!(found, Ok(true)), "{}", row.0);
    }
}

fn rect_of(sides: Sides) -> Rect {
    let (left, top, right, bottom) = sides;
    Rect {
        left,
        top,
        right,
        bottom,
    }
}

/// Whether the line's coordinate lies between the sides of the rectangle across it.
fn is_between_sides(line: &Line, near: &Rect) -> bool {
    let (first, last) = match line.way {
        Way::Vertical => (near.left, near.right),
        Way::Horizontal => (near.top, near.bottom),
    };
    first <= line.at && line.at <= last
}

/// Whether the lines found near the rectangle are those of all whose coordinate lies between its
/// sides.
fn is_among_all(alloc: Global, floor: &Floor, all: &[Line], near: &Rect) -> Result<bool, AllocError>
    requires { IsFloor floor.now }
{
    let found = lines_near(alloc, floor, near)?;
    let between = all.iter().filter(|line| is_between_sides(line, near));
    Ok(between.eq(found.iter()))
}

/// The whole sheet and beyond it, a point, sides of solids, the middle of one, a place beyond all,
/// and none.
const PLACES: [Sides; 10] = [
    (SHEET_START, SHEET_START, SHEET_END, SHEET_END),
    (
        SHEET_START * 2,
        SHEET_START * 2,
        SHEET_END * 2,
        SHEET_END * 2,
    ),
    (10, 10, 10, 10),
    (5, 11, 5, 11),
    (0, 10, 10, 20),
    (40, 30, 120, 90),
    (1, 11, 4, 19),
    (90_000, 90_000, 90_001, 90_001),
    (-9, 0, -6, 40),
    (10, 20, 0, 0),
];

/// Whether the lines near each of the places are those among all.
fn are_among_all(alloc: Global, floor: &Floor, all: &[Line]) -> Result<bool, AllocError>
    requires { IsFloor floor.now }
{
    for &sides in &PLACES {
        if !is_among_all(alloc, floor, all, &rect_of(sides))? {
            return Ok(false);
        }
    }
    Ok(true)
}

/// Whether there are so many kept lines, and the lines near each of the places are those among
/// them.
fn counts(alloc: Global, floor: &Floor, want: usize) -> Result<bool, AllocError>
    requires { IsFloor floor.now }
{
    let all = all_lines(alloc, floor)?;
    let among = are_among_all(alloc, floor, all.as_slice())?;
    Ok(among && all.len() == want)
}

fn has_count(alloc: Global, floor: Plain<'_>, want: usize) -> Result<bool, AllocError> {
    let floor = small_floor(alloc, floor.0, floor.1)?;
    counts(alloc, &floor, want)
}

const COUNTED: [(Plain<'static>, usize); 5] = [
    ((&[], &[]), 0),
    // Without an anchor in it and with one.
    ((&CORRIDOR, &[]), 5),
    ((&CORRIDOR, &[(5, 10)]), 6),
    ((&ROW, &ROW_ANCHORS), 16),
    ((&BETWEEN, &[]), 12),
];

#[test]
fn finds_near_a_rectangle_what_is_among_all(rt: HostRuntime) -> Result<(), Fail> {
    for (place, &(floor, want)) in COUNTED.iter().enumerate() {
        assert!(rt; has_count(rt.alloc(), floor, want)?, "in row {place}");
    }
    Ok(())
}
