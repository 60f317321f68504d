//! Marks on whole lines: the sides of solids, and anchors.
ghost use Rattle.std.specs.Prelude.{◌≡◌, ◌≤◌, ◌≤ℤ◌, ◌++◌, OnOk, IfOk, AllPairs, IsPermutation, length, map};
ghost use Rattle.sweep_lines.specs.Marks.{anchor_mark, keeps, marks_of, sides_from};

use crate::bar::Bar;
use interval_index::Span;
use plane_geom::{Axis, Floor, Point};
use std::alloc::{AllocError, Global};

/// The reason for a mark on a whole line.
#[derive(Clone, Copy, Debug, PartialEq, Eq)]
pub enum Kind {
    /// The side with which the solid of this number begins.
    Begin(u32),
    /// The side with which it ends.
    End(u32),
    Anchor,
}

/// A closed interval of the whole line at a coordinate: the side of a solid, or an anchor.
#[derive(Clone, Copy, Debug, PartialEq, Eq)]
pub struct Mark {
    pub at: i64,
    pub lo: i64,
    pub hi: i64,
    pub kind: Kind,
}

impl Mark {
    ghost use Rattle.sweep_lines.specs.Marks.{begin_mark, begun_span, end_mark};

    /// The side with which the bar of this number begins.
    fn begin(number: u32, bar: &Bar) -> Mark
        ensures { result ≡ begin_mark number bar.now }
    {
        Mark {
            at: bar.begin,
            lo: bar.lo,
            hi: bar.hi,
            kind: Kind::Begin(number),
        }
    }

    /// The side with which the bar of this number ends.
    fn end(number: u32, bar: &Bar) -> Mark
        ensures { result ≡ end_mark number bar.now }
    {
        Mark {
            at: bar.end,
            lo: bar.lo,
            hi: bar.hi,
            kind: Kind::End(number),
        }
    }

    fn anchor<A: Axis>(anchor: Point) -> Mark
        ensures { result ≡ anchor_mark A.way_of anchor }
    {
        let (at, along) = (A::across(anchor), A::along(anchor));
        Mark {
            at,
            lo: along,
            hi: along,
            kind: Kind::Anchor,
        }
    }

    /// The span of the solid that begins with this side.
    pub fn begun(&self) -> Option<Span>
        ensures { result ≡ begun_span self.now }
    {
        match self.kind {
            Kind::Begin(key) => Some(Span {
                key,
                lo: self.lo,
                hi: self.hi,
            }),
            Kind::End(_) | Kind::Anchor => None,
        }
    }

    /// Whether this mark keeps the free piece of its whole line from `lo` to `hi`.
    pub fn keeps_piece(&self, lo: i64, hi: i64) -> bool
        ensures { result ≡ keeps (record { lo = lo; hi = hi }) self.now }
    {
        self.lo <= hi && lo <= self.hi && (lo < hi || self.kind == Kind::Anchor)
    }
}

/// All marks on whole lines of the axis.
pub fn marks<A: Axis>(alloc: Global, bars: &[Bar], floor: &Floor) -> Result<Vec<Mark>, AllocError>
    requires { length bars.now ≤ 256 }
    ensures { IfOk result (λ v. v.items ≡ marks_of A.way_of bars.now floor.now.anchors) }
{
    let mut marks = Vec::new(alloc);
    push_sides(bars, &mut marks)?;
    push_anchors::<A>(floor, &mut marks)?;
    Ok(marks)
}

fn push_sides(bars: &[Bar], marks: &mut Vec<Mark>) -> Result<(), AllocError>
    requires { length bars.now ≤ 256 }
    ensures { OnOk result (marks.new.items ≡ marks.old.items ++ sides_from 0 bars.now) }
{
    for (number, bar) in bars.iter().enumerate() {
        let number = number as u32;
        marks.push(Mark::begin(number, bar))?;
        marks.push(Mark::end(number, bar))?;
    }
    Ok(())
}

fn push_anchors<A: Axis>(floor: &Floor, marks: &mut Vec<Mark>) -> Result<(), AllocError>
    ensures { OnOk result (marks.new.items ≡ marks.old.items ++ map (anchor_mark A.way_of) floor.now.anchors) }
{
    for anchor in floor.anchors.as_slice() {
        marks.push(Mark::anchor::<A>(*anchor))?;
    }
    Ok(())
}

/// Puts the marks in the order of their coordinates.
pub fn put_in_order(marks: &mut Vec<Mark>) -> Result<(), AllocError>
    ensures order { OnOk result (AllPairs (λ m n. m.at ≤ℤ n.at) marks.new.items) }
    ensures moved { IsPermutation marks.old.items marks.new.items }
{
    marks.sort_by_key(|mark| mark.at)
}
