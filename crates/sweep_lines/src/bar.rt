//! Solids relative to lines of one way.
ghost use Rattle.std.specs.Prelude.{◌≡◌, ◌≤◌, All, IfOk, length};
ghost use Rattle.sweep_lines.specs.Bars.{bar_of, bars_of};
ghost use Rattle.sweep_lines.specs.Open.{AreSpansOf, HasBegun, HasLength};

use interval_index::{IntervalIndex, Span};
use plane_geom::{Axis, Floor, Point, Rect};
use std::alloc::{AllocError, Global};

/// A solid relative to lines of one way: the coordinates that it spans across, and its extent
/// along.
#[derive(Clone, Copy, Debug)]
pub struct Bar {
    pub begin: i64,
    pub end: i64,
    pub lo: i64,
    pub hi: i64,
}

impl Bar {
    ghost use Rattle.std.specs.Prelude.{IsTrue, ◌↔◌};
    ghost use Rattle.sweep_lines.specs.Open.{span_of};

    /// Whether the bar begins before the coordinate and ends at it or later.
    fn has_begun(&self, at: i64) -> bool
        ensures { IsTrue result ↔ HasBegun at self.now }
    {
        self.begin < at && at <= self.end
    }

    /// The extent of the bar along the lines, under a number.
    fn span(&self, number: u32) -> Span
        ensures { result ≡ span_of number self.now }
    {
        Span {
            key: number,
            lo: self.lo,
            hi: self.hi,
        }
    }
}

/// The solids of the floor relative to lines of the axis, by number.
pub fn bars<A: Axis>(alloc: Global, floor: &Floor) -> Result<Vec<Bar>, AllocError>
    ensures { IfOk result (λ v. v.items ≡ bars_of A.way_of floor.now.solids) }
{
    let mut bars = Vec::new(alloc);
    for solid in floor.solids.as_slice() {
        bars.push(bar_along::<A>(&solid.rect))?;
    }
    Ok(bars)
}

fn bar_along<A: Axis>(rect: &Rect) -> Bar
    ensures { result ≡ bar_of A.way_of rect.now }
{
    let near = Point {
        x: rect.left,
        y: rect.top,
    };
    let far = Point {
        x: rect.right,
        y: rect.bottom,
    };
    Bar {
        begin: A::across(near),
        end: A::across(far),
        lo: A::along(near),
        hi: A::along(far),
    }
}

/// The spans of the bars that are open when a sweep reaches the coordinate, each under the bar's
/// number.
pub fn open_before(alloc: Global, bars: &[Bar], at: i64) -> Result<IntervalIndex, AllocError>
    requires few { length bars.now ≤ 256 }
    requires lengths { All (λ b. HasLength b.lo b.hi) bars.now }
    ensures { IfOk result (AreSpansOf bars.now (HasBegun at)) }
{
    let mut index = IntervalIndex::new(alloc);
    for (number, bar) in bars.iter().enumerate() {
        if bar.has_begun(at) {
            index.insert(bar.span(number as u32))?;
        }
    }
    Ok(index)
}
