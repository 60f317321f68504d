//! A grid of lines, filled and emptied, and each call on an arena once.
ghost use Rattle.std.specs.Prelude.{◌≡◌, ◌≢◌, ◌+◌, ◌<◌, ◌≤◌, ◌<ℤ◌, ◌≤ℤ◌, All, IsTrue};
ghost use Rattle.plane_geom.specs.declared.point.Way.TheVariants.{Vertical, Horizontal};
ghost use Rattle.line_arena.specs.Arena.{IsApart};
ghost use Rattle.floor_tests.specs.Lines.{Overlap, point_of};

use line_arena::{CrossId, LineArena, LineId};
use plane_geom::{Dir, Line, Point, Way};
use std::alloc::{AllocError, Global};

fn differ(first: &Line, second: &Line) -> bool
    ensures { IsTrue result → first.now.way ≢ second.now.way }
{
    first.way != second.way
}

fn is_elsewhere(first: &Line, second: &Line) -> bool
    ensures { IsTrue result → first.now.at ≢ second.now.at }
{
    first.at != second.at
}

/// Whether the first line begins after the end of the second.
fn is_past(first: &Line, second: &Line) -> bool
    ensures { IsTrue result → second.now.hi <ℤ first.now.lo }
{
    second.hi < first.lo
}

/// Whether the two are not pieces of one whole line that share a point.
fn is_apart_from(first: &Line, second: &Line) -> bool
    ensures { IsTrue result → Overlap first.now second.now → ⊥ }
{
    if differ(first, second) {
        return true;
    }
    if is_elsewhere(first, second) {
        return true;
    }
    if is_past(first, second) {
        return true;
    }
    is_past(second, first)
}

/// Whether the line overlaps none of these.
fn are_clear(entries: &[(Line, LineId)], line: &Line) -> bool
    ensures { IsTrue result → All (λ entry. Overlap entry.0 line.now → ⊥) entries.now }
{
    entries.iter().all(|entry| is_apart_from(&entry.0, line))
}

/// Whether the line shares no point with another line of its way in the arena.
fn is_apart(arena: &LineArena, line: Line) -> bool
    ensures { IsTrue result → IsApart arena.now line }
{
    are_clear(arena.lines_in_order(), &line)
}

/// Adds the line, if it is apart from those in the arena.
fn put(arena: &mut LineArena, line: Line) -> Option<LineId>
    requires { 0 < arena.old.spare_lines }
    ensures lines { arena.old.spare_lines ≤ arena.new.spare_lines + 1 }
    ensures crossings { arena.new.spare_crossings ≡ arena.old.spare_crossings }
{
    if line.lo > line.hi {
        return None;
    }
    if !is_apart(arena, line) {
        return None;
    }
    Some(arena.put_line(line))
}

/// Whether the first line is vertical and the second horizontal.
fn are_down_and_across(down: &Line, across: &Line) -> bool
    ensures down_runs { IsTrue result → down.now.way ≡ Vertical }
    ensures across_runs { IsTrue result → across.now.way ≡ Horizontal }
{
    matches!((down.way, across.way), (Way::Vertical, Way::Horizontal))
}

/// Whether the line reaches to the coordinate.
fn reaches(line: &Line, at: i64) -> bool
    ensures from { IsTrue result → line.now.lo ≤ℤ at }
    ensures to { IsTrue result → at ≤ℤ line.now.hi }
{
    line.lo <= at && at <= line.hi
}

/// Whether these are a vertical and a horizontal line that share a point.
fn do_cross(down: &Line, across: &Line) -> bool
    ensures down_runs { IsTrue result → down.now.way ≡ Vertical }
    ensures across_runs { IsTrue result → across.now.way ≡ Horizontal }
    ensures down_from { IsTrue result → down.now.lo ≤ℤ across.now.at }
    ensures down_to { IsTrue result → across.now.at ≤ℤ down.now.hi }
    ensures across_from { IsTrue result → across.now.lo ≤ℤ down.now.at }
    ensures across_to { IsTrue result → down.now.at ≤ℤ across.now.hi }
{
    are_down_and_across(down, across) && reaches(down, across.at) && reaches(across, down.at)
}

/// Where the whole lines meet.
fn point_of(down: &Line, across: &Line) -> Point
    ensures { result ≡ point_of down.now across.now }
{
    Point {
        x: down.at,
        y: across.at,
    }
}

/// Adds the crossing of the two lines, if they are in the arena and it is not.
fn cross(arena: &mut LineArena, down: Line, across: Line) -> Option<CrossId>
    requires { 0 < arena.old.spare_crossings }
    ensures { arena.new.spare_lines ≡ arena.old.spare_lines }
{
    if !do_cross(&down, &across) {
        return None;
    }
    if let Some(_) = arena.crossing_at(point_of(&down, &across)) {
        return None;
    }
    let Some(vertical) = arena.line_at(down) else {
        return None;
    };
    let Some(horizontal) = arena.line_at(across) else {
        return None;
    };
    Some(arena.put_crossing(vertical, horizontal))
}

/// Removes the crossing at the point, and returns whether there was one.
fn take_crossing(arena: &mut LineArena, at: Point) -> bool
    ensures { arena.new.spare_lines ≡ arena.old.spare_lines }
{
    let Some(crossing) = arena.crossing_at(at) else {
        return false;
    };
    arena.remove_crossing(crossing);
    true
}

/// Removes the line, and returns whether it was there without crossings.
fn take_line(arena: &mut LineArena, line: Line) -> bool {
    let Some(id) = arena.line_at(line) else {
        return false;
    };
    if let Some(_) = arena.first_on_line(id) {
        return false;
    }
    arena.remove_line(id);
    true
}

const SIDE: u8 = 30;

/// The line of the grid at the number, through all of the others.
fn grid_line(way: Way, at: u8) -> Line {
    Line {
        way,
        at: i64::from(at),
        lo: 0,
        hi: i64::from(SIDE),
    }
}

fn grid_point(column: u8, row: u8) -> Point {
    Point {
        x: i64::from(column),
        y: i64::from(row),
    }
}

/// Adds the lines of the grid.
fn put_grid(arena: &mut LineArena) -> Result<(), AllocError> {
    for at in 0..SIDE {
        arena.reserve(1, 0)?;
        put(arena, grid_line(Way::Vertical, at));
        arena.reserve(1, 0)?;
        put(arena, grid_line(Way::Horizontal, at));
    }
    Ok(())
}

/// Adds the crossing of the grid if it is not there, and removes it if it is.
fn toggle(arena: &mut LineArena, column: u8, row: u8) -> Result<(), AllocError> {
    if take_crossing(arena, grid_point(column, row)) {
        return Ok(());
    }
    arena.reserve(0, 1)?;
    cross(
        arena,
        grid_line(Way::Vertical, column),
        grid_line(Way::Horizontal, row),
    );
    Ok(())
}

/// Whether a walk in the direction from the first of the points passes exactly these.
fn walks(arena: &LineArena, points: &[Point], dir: Dir) -> bool {
    let Some(first) = points.first() else {
        return false;
    };
    let mut next = arena.crossing_at(*first);
    for point in points {
        let Some(crossing) = next else {
            return false;
        };
        if arena.point(crossing) != *point {
            return false;
        }
        next = arena.next_on_line(crossing, dir);
    }
    next.is_none()
}

fn is_odd(column: u8, row: u8) -> bool {
    (u16::from(column) + u16::from(row)) % 2 == 1
}

/// The points of the grid's line in the direction, all of them or every other one.
fn expected(alloc: Global, at: u8, dir: Dir, half: bool) -> Result<Vec<Point>, AllocError> {
    let mut points = Vec::new(alloc);
    for step in 0..SIDE {
        if !half || is_odd(at, step) {
            points.push(match dir.way() {
                Way::Horizontal => grid_point(step, at),
                Way::Vertical => grid_point(at, step),
            })?;
        }
    }
    if matches!(dir, Dir::West | Dir::North) {
        points.reverse();
    }
    Ok(points)
}

/// The point of the first crossing of the line.
fn first_of(arena: &LineArena, line: Line) -> Option<Point> {
    let first = arena.first_on_line(arena.line_at(line)?)?;
    Some(arena.point(first))
}

/// Whether the line of the grid begins at the point, if the direction is from its start.
fn begins_at(arena: &LineArena, at: u8, dir: Dir, first: Option<&Point>) -> bool {
    matches!(dir, Dir::West | Dir::North)
        || first_of(arena, grid_line(dir.way(), at)) == first.copied()
}

/// Whether the line of the grid has just these points in the direction, and begins at the first of
/// them in a walk to the east or south.
fn has_just(arena: &LineArena, at: u8, dir: Dir, want: &[Point]) -> bool {
    walks(arena, want, dir) && begins_at(arena, at, dir, want.first())
}

/// Whether the line of the grid is walked along as expected.
fn walks_line(
    alloc: Global,
    arena: &LineArena,
    at: u8,
    dir: Dir,
    half: bool,
) -> Result<bool, AllocError> {
    let want = expected(alloc, at, dir, half)?;
    Ok(has_just(arena, at, dir, want.as_slice()))
}

/// Whether every line of the grid is walked along as expected, in both directions.
fn stands(alloc: Global, arena: &LineArena, half: bool) -> Result<bool, AllocError> {
    for at in 0..SIDE {
        for &dir in &[Dir::East, Dir::South, Dir::West, Dir::North] {
            if !walks_line(alloc, arena, at, dir, half)? {
                return Ok(false);
            }
        }
    }
    Ok(true)
}

fn found(arena: &LineArena, column: u8, row: u8) -> Option<CrossId> {
    arena.crossing_at(grid_point(column, row))
}

/// Whether a crossing is found exactly at the points that have one: all of the grid, or every other
/// one.
fn finds_just_these(arena: &LineArena, half: bool) -> bool {
    for column in 0..=SIDE {
        for row in 0..=SIDE {
            let stands = column < SIDE && row < SIDE && (!half || is_odd(column, row));
            if found(arena, column, row).is_some() != stands {
                return false;
            }
        }
    }
    true
}

/// The number of crossings of the grid.
const CROSSINGS: u32 = 900;

/// Toggles the crossing of the number, unless there are enough and its place is odd.
fn toggle_place(arena: &mut LineArena, number: u32) -> Result<(), AllocError>
    requires { number < 900 }
{
    let (column, row) = ((number % 30) as u8, (number / 30) as u8);
    if arena.written() >= 960 && is_odd(column, row) {
        return Ok(());
    }
    toggle(arena, column, row)
}

/// Toggles each crossing of the grid once, in an order that the step determines: all of them until
/// all are there, and then every other one.
fn toggle_all(arena: &mut LineArena, step: u16) -> Result<(), AllocError> {
    for turn in 0..CROSSINGS {
        toggle_place(arena, turn * u32::from(step) % CROSSINGS)?;
    }
    Ok(())
}

/// Toggles each crossing, and returns whether the grid is then as expected.
fn stands_after(
    alloc: Global,
    arena: &mut LineArena,
    step: u16,
    half: bool,
) -> Result<bool, AllocError> {
    toggle_all(arena, step)?;
    Ok(stands(alloc, arena, half)? && finds_just_these(arena, half))
}

/// The value of `written`, if the grid is as expected each time: filled, halved and filled again.
fn written_in(alloc: Global, arena: &mut LineArena, step: u16) -> Result<Option<u64>, AllocError> {
    put_grid(arena)?;
    for &half in &[false, true, false] {
        if !stands_after(alloc, arena, step, half)? {
            return Ok(None);
        }
    }
    Ok(Some(arena.written()))
}

/// The same in a new arena.
fn written(alloc: Global, step: u16) -> Result<Option<u64>, AllocError> {
    let mut arena = LineArena::new(alloc);
    written_in(alloc, &mut arena, step)
}

/// Adds the lines of the grid and one crossing.
fn put_one(arena: &mut LineArena) -> Result<(), AllocError> {
    put_grid(arena)?;
    toggle(arena, 5, 10)
}

/// Whether the one crossing of the arena is at (5, 10), and has none to the north.
fn has_one(arena: &LineArena) -> bool {
    let Some(crossing) = arena.crossing_at(grid_point(5, 10)) else {
        return false;
    };
    arena.point(crossing) == grid_point(5, 10)
        && arena.next_on_line(crossing, Dir::North).is_none()
        && arena.index(crossing) < arena.places()
        && found(arena, 10, 5).is_none()
}

/// Whether one crossing is added, found and removed.
fn answers(arena: &mut LineArena) -> Result<bool, AllocError> {
    put_one(arena)?;
    let column = grid_line(Way::Vertical, 5);
    let stands = arena.written() == 61
        && has_one(arena)
        && first_of(arena, column) == Some(grid_point(5, 10));
    toggle(arena, 5, 10)?;
    Ok(stands && first_of(arena, column).is_none())
}

/// Adds the crossings of the grid at these columns and rows, one after another.
fn put_all(arena: &mut LineArena, places: &[(u8, u8)]) -> Result<(), AllocError> {
    for &(column, row) in places {
        toggle(arena, column, row)?;
    }
    Ok(())
}

/// Whether a walk in the direction from the first of the points passes exactly these, and so does
/// the walk back.
fn joins(alloc: Global, arena: &LineArena, points: &[Point], dir: Dir) -> Result<bool, AllocError> {
    let mut back = Vec::from_slice(alloc, points)?;
    back.reverse();
    Ok(walks(arena, points, dir) && walks(arena, back.as_slice(), dir.opposite()))
}

/// The crossing to the north of (5, 12) has one to its west, which leads south to this row. That of
/// (11, 12) leads to another row. (15, 12) has none to the north, and those of (16, 12) and (17,
/// 12) lead nowhere.
const ROW: [Point; 7] = [
    Point { x: 2, y: 12 },
    Point { x: 5, y: 12 },
    Point { x: 11, y: 12 },
    Point { x: 15, y: 12 },
    Point { x: 16, y: 12 },
    Point { x: 17, y: 12 },
    Point { x: 20, y: 12 },
];

/// A column that crosses the row, after more crossings were added.
const COLUMN: [Point; 4] = [
    Point { x: 5, y: 10 },
    Point { x: 5, y: 12 },
    Point { x: 5, y: 15 },
    Point { x: 5, y: 20 },
];

/// In the order in which they are added.
const AROUND_ROW: [(u8, u8); 15] = [
    (2, 12),
    (20, 12),
    (2, 10),
    (5, 10),
    (5, 12),
    (7, 11),
    (7, 13),
    (11, 11),
    (11, 12),
    (15, 12),
    (16, 9),
    (16, 12),
    (13, 8),
    (17, 8),
    (17, 12),
];

/// Whether the row, and then a column, is joined where crossings are put between others.
fn joins_between(alloc: Global, arena: &mut LineArena) -> Result<bool, AllocError> {
    put_grid(arena)?;
    put_all(arena, &AROUND_ROW)?;
    let row = joins(alloc, arena, &ROW, Dir::East)?;
    // The crossing to the west of (5, 15) has one to its north, which leads east to this column.
    put_all(arena, &[(5, 20), (2, 15), (5, 15)])?;
    Ok(row && joins(alloc, arena, &COLUMN, Dir::South)?)
}

const LEVEL: Line = Line {
    way: Way::Horizontal,
    at: 7,
    lo: 0,
    hi: 10,
};

/// A line that is a single point.
const DOT: Line = Line {
    way: Way::Vertical,
    at: 5,
    lo: 7,
    hi: 7,
};

/// One of two points further down in the same column.
const UNDER: Line = Line {
    way: Way::Vertical,
    at: 5,
    lo: 8,
    hi: 9,
};

/// Adds the lines and the crossing, for which room is made only once.
fn fill(arena: &mut LineArena) -> Result<bool, AllocError> {
    arena.reserve(3, 1)?;
    let lines = put(arena, LEVEL).is_some() && put(arena, DOT).is_some();
    Ok(lines && cross(arena, DOT, LEVEL).is_some() && put(arena, UNDER).is_some())
}

/// Whether the one crossing of the arena is on the dot, and has none to the south.
fn has_dot(arena: &LineArena) -> bool {
    let Some(crossing) = arena.crossing_at(grid_point(5, 7)) else {
        return false;
    };
    arena.point(crossing) == Point { x: 5, y: 7 }
        && arena.next_on_line(crossing, Dir::South).is_none()
}

fn has_none(arena: &LineArena, places: &[(u8, u8)]) -> bool {
    for &(column, row) in places {
        if found(arena, column, row).is_some() {
            return false;
        }
    }
    true
}

/// Whether only the row is found, at the second place, where this place is tried first.
fn finds_row_near(arena: &LineArena, place: usize) -> bool {
    let Some((id, at)) = arena.line_near(LEVEL, place) else {
        return false;
    };
    at == 1 && arena.line_at(LEVEL) == Some(id) && arena.line_near(DOT, place).is_none()
}

/// Whether only the row is found, whichever place is tried first.
fn finds_row(arena: &LineArena) -> bool {
    for place in 0..3 {
        if !finds_row_near(arena, place) {
            return false;
        }
    }
    true
}

/// Whether the crossing on the dot, and then the dot, are removed, and the row stays.
fn empties(arena: &mut LineArena) -> bool {
    let crossing = take_crossing(arena, grid_point(5, 7)) && has_none(arena, &[(5, 7)]);
    let line = take_line(arena, DOT) && has_none(arena, &[(5, 7)]);
    // The row comes after the line under the removed point.
    crossing && line && arena.line_at(LEVEL).is_some() && finds_row(arena)
}

fn fills_and_empties(arena: &mut LineArena) -> Result<bool, AllocError> {
    let filled = fill(arena)?;
    let stands = has_dot(arena) && has_none(arena, &[(5, 8), (4, 7)]);
    Ok(filled && stands && empties(arena) && arena.written() == 4)
}

/// What is done with a new arena.
#[derive(Clone, Copy)]
enum Trial {
    EachCall,
    BetweenOthers,
    RoomTaken,
}

fn passes_in(alloc: Global, arena: &mut LineArena, trial: Trial) -> Result<bool, AllocError> {
    match trial {
        Trial::EachCall => answers(arena),
        Trial::BetweenOthers => joins_between(alloc, arena),
        Trial::RoomTaken => fills_and_empties(arena),
    }
}

fn passes(alloc: Global, trial: Trial) -> Result<bool, AllocError> {
    let mut arena = LineArena::new(alloc);
    passes_in(alloc, &mut arena, trial)
}

const TRIALS: [(&str, Trial); 3] = [
    ("answers each call", Trial::EachCall),
    ("puts between others", Trial::BetweenOthers),
    ("fills just the room taken", Trial::RoomTaken),
];

#[test]
fn keeps_lines_and_crossings(rt: HostRuntime) {
    for &(name, trial) in &TRIALS {
        let passed = passes(rt.alloc(), trial);
        assert!(rt; matches!(passed, Ok(true)), "{name}");
    }
}
