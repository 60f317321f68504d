//! Which lines meet, and the numbers of crossings.
ghost use Rattle.std.specs.Prelude.{◌≡◌, ◌+◌, ◌≤◌, true, false, not, int_lt, filter, count_by, length, All, IsTrue, IfOk, OnOk};
ghost use Rattle.std.specs.List.Sorted.{IsPartitionPoint};
ghost use Rattle.plane_geom.specs.declared.point.Way.{Way};
ghost use Rattle.plane_geom.specs.Order.{AreOrdered};
ghost use Rattle.visibility_graph.specs.Meeting.{coming, meets, reaches, sorted_out};

use plane_geom::{Line, Way};
use std::alloc::AllocError;

/// The number of crossings that are added when `new` lines are put beside those that stay.
///
/// Both lists are in order. The only error is out of memory: it also stands for a number that no
/// `usize` holds.
pub fn crossings_of(new: &[Line], stay: &[Line]) -> Result<usize, AllocError>
    requires new_ordered { AreOrdered new.now }
    requires stay_ordered { AreOrdered stay.now }
    ensures { IfOk result (λ n. n ≡ coming new.now stay.now) }
{
    let mut count: usize = 0;
    for (place, line) in new.iter().enumerate() {
        let (before, _) = new.split_at(place);
        count = added(count, count_met(line, stay))?;
        count = added(count, count_met(line, before))?;
    }
    Ok(count)
}

/// The sum, or out of memory where no `usize` holds it.
pub(crate) fn added(a: usize, b: usize) -> Result<usize, AllocError>
    ensures sum { IfOk result (λ n. n ≡ a + b) }
    ensures within { OnOk result (a + b ≤ usize.MAX) }
{
    a.checked_add(b).ok_or(AllocError)
}

/// The number of the others that the line meets.
fn count_met(line: &Line, others: &[Line]) -> usize
    requires { AreOrdered others.now }
    ensures { result ≡ count_by (meets line.now) others.now }
{
    let (_, here) = beside(line, others);
    let mut count = 0;
    for other in here {
        // Without a branch, since there is no pattern in which lines are reached.
        count += usize::from(is_reached(line, other));
    }
    count
}

/// Whether the other line runs past the coordinate of the line, or ends there.
pub(crate) fn is_reached(line: &Line, other: &Line) -> bool
    ensures { result ≡ reaches other.now line.now.at }
{
    (other.lo <= line.at) & (line.at <= other.hi)
}

/// The part of the others that run across at coordinates between the line's ends, and the number
/// of lines before that part.
///
/// The line meets no others than these, and of these exactly those that reach its whole line.
pub(crate) fn beside<'a>(line: &Line, others: &'a [Line]) -> (usize, &'a [Line])
    requires { AreOrdered others.now }
    ensures met { filter (meets line.now) result.1.now ≡ filter (meets line.now) others.now }
    ensures across { All (λ m. meets line.now m ≡ reaches m line.now.at) result.1.now }
    ensures ordered { AreOrdered result.1.now }
{
    if are_all_vertical(line, others) {
        return (others.len(), &[]);
    }
    let (front, _) = others.split_at(count_upto_end(line, others));
    let before = count_before(line, front);
    let (_, here) = front.split_at(before);
    (before, here)
}

/// Whether the line and all others are vertical; the last of them decides.
fn are_all_vertical(line: &Line, others: &[Line]) -> bool
    requires { AreOrdered others.now }
    ensures { IsTrue result → All (λ m. meets line.now m ≡ false) others.now }
{
    match (line.way, others.last()) {
        (Way::Vertical, Some(last)) => last.way == Way::Vertical,
        _ => false,
    }
}

/// The number of others that come before all those that the line may meet.
fn count_before(line: &Line, others: &[Line]) -> usize
    requires { AreOrdered others.now }
    ensures bound { result ≤ length others.now }
    ensures point { IsPartitionPoint (λ m. sorted_out line.now.way m.way (int_lt m.at line.now.lo) ≡ true) (λ m. sorted_out line.now.way m.way (int_lt m.at line.now.lo) ≡ false) others.now result }
{
    let (way, lo) = (line.way, line.lo);
    others.partition_point(|other| sorts_out(way, other.way, other.at < lo))
}

/// The number of others that come before all those across beyond the line's end.
fn count_upto_end(line: &Line, others: &[Line]) -> usize
    requires { AreOrdered others.now }
    ensures bound { result ≤ length others.now }
    ensures point { IsPartitionPoint (λ m. sorted_out line.now.way m.way (not (int_lt line.now.hi m.at)) ≡ true) (λ m. sorted_out line.now.way m.way (not (int_lt line.now.hi m.at)) ≡ false) others.now result }
{
    let (way, hi) = (line.way, line.hi);
    others.partition_point(|other| sorts_out(way, other.way, other.at <= hi))
}

/// Whether a line of the way `other` comes before the lines across a line of the way `way`; `rest`
/// decides for lines across.
///
/// Vertical lines come first.
fn sorts_out(way: Way, other: Way, rest: bool) -> bool
    ensures { result ≡ sorted_out way other rest }
{
    match (way, other) {
        (Way::Vertical, Way::Vertical) => true,
        (Way::Horizontal, Way::Horizontal) => false,
        _ => rest,
    }
}
