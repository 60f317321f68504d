//! Lines with their ids, in order.
ghost use Rattle.std.specs.Prelude.{◌≡◌, ◌+◌, ◌<◌, ◌≤◌, ◌⊎◌, ◌↔◌, ◌≢◌, ◌≤ℤ◌, ℕ, true, false, Some, Contains, IfSome, IsNone, IsTrue, length, vec_len, vec_capacity};
ghost use Rattle.std.specs.List.Sorted.{IsPartitionPoint};
ghost use Rattle.plane_geom.specs.declared.floor.Line.{Line};
ghost use Rattle.plane_geom.specs.declared.point.Way.TheVariants.{Vertical};
ghost use Rattle.plane_geom.specs.Floor.{Holds};
ghost use Rattle.line_arena.specs.Order.{AreApart, AreOrderedWithIds, HasPlace, at_point};
ghost use Rattle.plane_geom.specs.Order.{stands_before};

use crate::id::LineId;
use plane_geom::{Line, Point, Way};

/// The number of lines that are before the line or equal to it.
fn count_upto(lines: &[(Line, LineId)], line: &Line) -> usize
    requires { AreOrderedWithIds lines.now }
    ensures bound { result ≤ length lines.now }
    ensures point { IsPartitionPoint (λ e. stands_before line.now e.0 ≡ false) (λ e. stands_before line.now e.0 ≡ true) lines.now result }
{
    lines.partition_point(|(other, _)| !line.stands_before(other))
}

/// Inserts a line at its place, and takes no memory.
pub fn put_in_order(lines: &mut Vec<(Line, LineId)>, line: Line, id: LineId)
    requires ordered { AreOrderedWithIds lines.old.items }
    requires place { HasPlace lines.old.items line }
    requires room { vec_len lines.old < vec_capacity lines.old }
    ensures ordered { AreOrderedWithIds lines.new.items }
    ensures there { (e : Line × ℕ) → Contains lines.new.items e ↔ ((e ≡ (line, id)) ⊎ Contains lines.old.items e) }
    ensures len { vec_len lines.new ≡ vec_len lines.old + 1 }
    ensures room { vec_capacity lines.new ≡ vec_capacity lines.old }
{
    let place = count_upto(lines.as_slice(), &line);
    let _ = lines.insert(place, (line, id));
}

/// Removes a line that is there.
pub fn take_out(lines: &mut Vec<(Line, LineId)>, line: &Line)
    requires ordered { AreOrderedWithIds lines.old.items }
    requires there { (id : ℕ) × Contains lines.old.items (line.now, id) }
    ensures ordered { AreOrderedWithIds lines.new.items }
    ensures left { (e : Line × ℕ) → Contains lines.new.items e ↔ (Contains lines.old.items e × (e.0 ≢ line.now)) }
    ensures len { vec_len lines.new + 1 ≡ vec_len lines.old }
    ensures room { vec_capacity lines.new ≡ vec_capacity lines.old }
{
    let place = count_upto(lines.as_slice(), line);
    lines.remove(place - 1);
}

/// The id of the line and its place, in logarithmic time.
fn find(lines: &[(Line, LineId)], line: &Line) -> Option<(LineId, usize)>
    requires { AreOrderedWithIds lines.now }
    ensures found { IfSome result (λ found. Contains lines.now (line.now, found.0)) }
    ensures absent { IsNone result → (id : ℕ) → Contains lines.now (line.now, id) → ⊥ }
{
    let place = count_upto(lines, line);
    if place == 0 {
        return None;
    }
    at_place(lines, line, place - 1)
}

/// The id of the line and its place, in constant time if the line is at the place `near`.
pub fn find_near(lines: &[(Line, LineId)], line: &Line, near: usize) -> Option<(LineId, usize)>
    requires { AreOrderedWithIds lines.now }
    ensures found { IfSome result (λ found. Contains lines.now (line.now, found.0)) }
    ensures absent { IsNone result → (id : ℕ) → Contains lines.now (line.now, id) → ⊥ }
{
    match at_place(lines, line, near) {
        None => find(lines, line),
        found => found,
    }
}

/// The id of the line and the place, if the line is there.
fn at_place(lines: &[(Line, LineId)], line: &Line, place: usize) -> Option<(LineId, usize)>
    ensures found { IfSome result (λ found. Contains lines.now (line.now, found.0)) }
    ensures absent { IsNone result → (id : ℕ) (there : Contains lines.now (line.now, id)) → there.0 ≢ place }
{
    let (other, id) = lines.get(place)?;
    if other.is_same(line) {
        Some((*id, place))
    } else {
        None
    }
}

/// The id of the vertical line through the point, in logarithmic time.
pub fn column_through(lines: &[(Line, LineId)], point: Point) -> Option<LineId>
    requires ordered { AreOrderedWithIds lines.now }
    requires apart { AreApart lines.now }
    ensures found { IfSome result (λ id. (line : Line) × Contains lines.now (line, id) × (line.way ≡ Vertical)) }
    ensures only { (e : Line × ℕ) → Contains lines.now e → e.0.way ≡ Vertical → Holds e.0 point → result ≡ Some e.1 }
{
    let here = column_at(point);
    let place = count_upto(lines, &here);
    if place == 0 {
        return None;
    }
    let (line, id) = lines[place - 1];
    if reaches(&line, point) {
        Some(id)
    } else {
        None
    }
}

/// The vertical line that has this point alone.
fn column_at(point: Point) -> Line
    ensures { result ≡ at_point point }
{
    Line {
        way: Way::Vertical,
        at: point.x,
        lo: point.y,
        hi: point.y,
    }
}

/// Whether the line is a vertical one in the point's column that does not end before the point.
fn reaches(line: &Line, point: Point) -> bool
    ensures { IsTrue result ↔ ((line.now.way ≡ Vertical) × (line.now.at ≡ point.x) × (point.y ≤ℤ line.now.hi)) }
{
    match line.way {
        Way::Vertical => line.at == point.x && point.y <= line.hi,
        Way::Horizontal => false,
    }
}
