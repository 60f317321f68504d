//! The sweep: marks by rising coordinate, with the spans of the solids that are open across each.
ghost use Rattle.std.specs.Prelude.{Bool, ◌≡◌, ◌≤◌, ◌++◌, false, true, not, ◌&&◌, ℕ, List, [], length, filter, All, AllPairs, Any, Contains, Some, IfOk, OnOk, count_by, ◌≤ℤ◌, ◌<ℤ◌};
ghost use Rattle.std.specs.List.{AllWithin, list_any};
ghost use Rattle.interval_index.specs.declared.span.Span.{Span};
ghost use Rattle.interval_index.specs.Index.{IsListed};
ghost use Rattle.plane_geom.specs.declared.floor.Line.{Line};
ghost use Rattle.plane_geom.specs.declared.floor.Floor.{Floor};
ghost use Rattle.plane_geom.specs.Point.{IsCoordinate};
ghost use Rattle.plane_geom.specs.Floor.{IsFloor};
ghost use Rattle.sweep_lines.specs.Marks.{begins, begun_span, ends, keeps, kept_gaps, kept_one};
ghost use Rattle.sweep_lines.specs.Open.{AreOpened, AreSpansOf, HasLength, IsCrossed};
ghost use Rattle.sweep_lines.specs.Kept.{AreAllKept, AreKept, RunsWithin, is_within, is_near};

use crate::bar::{Bar, bars, open_before};
use crate::mark::{Kind, Mark, marks, put_in_order};
use crate::near::is_within;
use interval_index::IntervalIndex;
use plane_geom::{Axis, Floor, Line, Rect, SHEET_END, SHEET_START, Way, XAxis, YAxis};
use std::alloc::{AllocError, Global};

/// The kept lines on one whole line, by rising `lo`.
///
/// The whole line runs the given way at the coordinate `at`, in thousandths, which lies on the
/// sheet. The only error is out of memory.
pub fn lines_at(alloc: Global, floor: &Floor, way: Way, at: i64) -> Result<Vec<Line>, AllocError>
    requires floor { IsFloor floor.now }
    requires within { IsCoordinate at }
    ensures { IfOk result (λ ls. AreKept floor.now (λ l. (l.way ≡ way) × (l.at ≡ at)) ls.items) }
{
    match way {
        Way::Vertical => lines_on::<XAxis>(alloc, floor, at),
        Way::Horizontal => lines_on::<YAxis>(alloc, floor, at),
    }
}

/// All kept lines of the floor: vertical ones first, by `at` and then by `lo`.
///
/// A sweep over the sides of the solids and the anchors for each way, with the spans of the solids
/// that are open across it in an index. The only error is out of memory.
pub fn all_lines(alloc: Global, floor: &Floor) -> Result<Vec<Line>, AllocError>
    requires floor { IsFloor floor.now }
    ensures { IfOk result (λ ls. AreAllKept floor.now ls.items) }
{
    let sheet = Rect {
        left: SHEET_START,
        top: SHEET_START,
        right: SHEET_END,
        bottom: SHEET_END,
    };
    lines_near(alloc, floor, &sheet)
}

/// The kept lines whose coordinate is between the two sides of the rectangle across them, or on one
/// of them, in the order of `all_lines`.
///
/// Sweeps only the sides and anchors that lie there, from the solids that are open where it begins.
/// The rectangle, in thousandths, may reach past the sheet. Where it ends before it begins, no line
/// of that way is found. The only error is out of memory.
pub fn lines_near(alloc: Global, floor: &Floor, near: &Rect) -> Result<Vec<Line>, AllocError>
    requires floor { IsFloor floor.now }
    ensures { IfOk result (λ ls. AreKept floor.now (λ l. is_near near.now l ≡ true) ls.items) }
{
    let mut lines = Vec::new(alloc);
    sweep::<XAxis>(alloc, floor, near.left, near.right, &mut lines)?;
    sweep::<YAxis>(alloc, floor, near.top, near.bottom, &mut lines)?;
    Ok(lines)
}

/// The list of all kept lines is unique, and so is the list of those that pass a test.
pub fn one_list_of_kept_lines()
    ensures all { (floor : Floor) (ls ms : List Line) → AreAllKept floor ls → AreAllKept floor ms → ls ≡ ms }
    ensures asked { (floor : Floor) (is_asked : Line → Bool) (ls ms : List Line) → AreKept floor (λ l. is_asked l ≡ true) ls → AreKept floor (λ l. is_asked l ≡ true) ms → ls ≡ ms }
{}

/// The kept lines of the axis on one whole line.
fn lines_on<A: Axis>(alloc: Global, floor: &Floor, at: i64) -> Result<Vec<Line>, AllocError>
    requires { IsFloor floor.now }
    ensures { IfOk result (λ ls. AreKept floor.now (λ l. (l.way ≡ A.way_of) × (l.at ≡ at)) ls.items) }
{
    let mut lines = Vec::new(alloc);
    sweep::<A>(alloc, floor, at, at, &mut lines)?;
    Ok(lines)
}

/// Appends the kept lines of the axis from one coordinate to another.
///
/// The index holds the spans of the solids that are open across the sweep's coordinate.
fn sweep<A: Axis>(
    alloc: Global,
    floor: &Floor,
    from: i64,
    to: i64,
    lines: &mut Vec<Line>,
) -> Result<(), AllocError>
    requires { IsFloor floor.now }
    ensures { OnOk result ((ls : List Line) × AreKept floor.now (RunsWithin A.way_of from to) ls × (lines.new.items ≡ lines.old.items ++ ls)) }
{
    let bars = bars::<A>(alloc, floor)?;
    let mut marks = marks::<A>(alloc, bars.as_slice(), floor)?;
    keep_within(&mut marks, from, to);
    put_in_order(&mut marks)?;
    let mut index = open_before(alloc, bars.as_slice(), from)?;
    let mut rest = marks.as_slice();
    while let Some(first) = rest.first() {
        let at = first.at;
        let (here, later) = rest.split_at(count_upto(rest, at));
        close(&mut index, here);
        push_kept(A::way(), at, bars.as_slice(), &index, here, lines)?;
        open(&mut index, here)?;
        rest = later;
    }
    Ok(())
}

/// Keeps only the marks from one coordinate to another.
fn keep_within(marks: &mut Vec<Mark>, from: i64, to: i64)
    ensures { marks.new.items ≡ filter (λ m. is_within from to m.at) marks.old.items }
{
    marks.retain(|mark| is_within(from, to, mark.at));
}

/// The number of marks, which rise by coordinate, at the coordinate or before it.
fn count_upto(marks: &[Mark], at: i64) -> usize
    requires { AllPairs (λ m n. m.at ≤ℤ n.at) marks.now }
    ensures bound { result ≤ length marks.now }
    ensures front { AllWithin (λ m. m.at ≤ℤ at) marks.now 0 result }
    ensures back { AllWithin (λ m. at <ℤ m.at) marks.now result (length marks.now) }
{
    marks.partition_point(|mark| mark.at <= at)
}

/// Removes the spans of the solids that end here.
fn close(index: &mut IntervalIndex, here: &[Mark])
    ensures { index.new ≡ filter (λ s. not (list_any (λ m. ends s.key m.kind) here.now)) index.old }
{
    for mark in here {
        if let Kind::End(number) = mark.kind {
            index.remove(number);
        }
    }
}

/// Adds the spans of the solids that begin here.
fn open(index: &mut IntervalIndex, here: &[Mark]) -> Result<(), AllocError>
    requires once { (k : ℕ) → count_by (λ m. begins k m.kind) here.now ≤ 1 }
    requires lengths { (s : Span) → Any (λ m. begun_span m ≡ Some s) here.now → HasLength s.lo s.hi }
    requires new { (s : Span) → Contains index.old s → All (λ m. begins s.key m.kind ≡ false) here.now }
    ensures { OnOk result (AreOpened here.now index.old index.new) }
{
    for mark in here {
        if let Some(span) = mark.begun() {
            index.insert(span)?;
        }
    }
    Ok(())
}

/// Appends the gaps between the spans that a mark keeps.
fn push_kept(
    way: Way,
    at: i64,
    bars: &[Bar],
    index: &IntervalIndex,
    here: &[Mark],
    lines: &mut Vec<Line>,
) -> Result<(), AllocError>
    requires { AreSpansOf bars.now (IsCrossed at) index.now }
    ensures lines { OnOk result (lines.new.items ≡ lines.old.items ++ kept_gaps way at here.now index.now) }
    ensures listed { IsListed index.now }
{
    let mut lo = SHEET_START;
    for number in index.touching(SHEET_START, SHEET_END)?.as_slice() {
        let bar = bars[*number as usize];
        push_if_kept(way, at, lo, bar.lo, here, lines)?;
        lo = lo.max(bar.hi);
    }
    push_if_kept(way, at, lo, SHEET_END, here, lines)
}

/// Appends the piece from `lo` to `hi`, if there is one and a mark keeps it.
fn push_if_kept(
    way: Way,
    at: i64,
    lo: i64,
    hi: i64,
    here: &[Mark],
    lines: &mut Vec<Line>,
) -> Result<(), AllocError>
    ensures { OnOk result (lines.new.items ≡ lines.old.items ++ kept_one way at here.now (record { lo = lo; hi = hi })) }
{
    if lo <= hi && is_kept(lo, hi, here) {
        lines.push(Line { way, at, lo, hi })?;
    }
    Ok(())
}

/// Whether a mark keeps the piece from `lo` to `hi`.
fn is_kept(lo: i64, hi: i64, here: &[Mark]) -> bool
    ensures { result ≡ list_any (keeps (record { lo = lo; hi = hi })) here.now }
{
    here.iter().any(|mark| mark.keeps_piece(lo, hi))
}
