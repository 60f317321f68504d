//! The first step of a line that meets a solid which it may not meet.
ghost use Rattle.std.specs.Prelude.{◌≡◌, ◌↔◌, ℕ, pos, ◌<◌, ◌≤◌, ◌∷◌, ◌+ℤ◌, ◌≤ℤ◌, ◌<ℤ◌, length, All, MatchOption};
ghost use Rattle.plane_geom.specs.Point.{PointIsOnSheet, forward};
ghost use Rattle.plane_geom.specs.Rect.{RectIsOnSheet, StepMeets};
ghost use Rattle.walk_model.specs.Choice.{IsChoice, stub_length};
ghost use Rattle.walk_model.specs.Line.{steps_through, walk_through};
ghost use Rattle.walk_model.specs.Walk.{Walk};
ghost use Rattle.route_check.specs.Line.{IsLineFrom};
ghost use Rattle.route_check.specs.Hit.{IsFirstMeeting, MeetsNone};
ghost use Rattle.route_check.specs.Steps.{IsAmong};
ghost use Rattle.route_check.specs.Verdict.{HitsFirst, HitsNone, MayMeet};

use crate::steps::Steps;
use plane_geom::{Dir, Point, Rect, Solid};
use walk_model::Choice;

/// A step that meets a rectangle, and the segment that it is on, counted from 1.
#[derive(Clone, Copy)]
struct Meeting {
    step: u64,
    segment: u32,
}

/// The first hit of a line: its segment, counted from 1, and the node whose solid is hit.
#[derive(Clone, Copy)]
pub struct Hit {
    pub segment: u32,
    pub node: i64,
}

/// The first step of the line, which has `steps` steps, that meets a solid which it may not meet,
/// and the first such solid.
///
/// A step of a stub may meet the solid of the stub's node, and no other step may meet any.
pub fn first_hit(
    solids: &[Solid],
    start: &Choice,
    end: &Choice,
    steps: u64,
    first: Point,
    rest: &[Point],
) -> Option<Hit>
    requires solids_within { All (λ s. RectIsOnSheet s.rect) solids.now }
    requires start { IsChoice start.now }
    requires end { IsChoice end.now }
    requires line { IsLineFrom first rest.now }
    requires counted { steps ≡ length (steps_through first rest.now) }
    requires fits { stub_length end.now ≤ steps }
    ensures { let w = walk_through first rest.now in
        MatchOption result (HitsNone solids.now start.now w end.now)
        (λ hit. HitsFirst solids.now (first ∷ rest.now) start.now w end.now hit.segment hit.node) }
{
    let mut hit = None;
    let mut limit = steps;
    for solid in solids {
        let closed = closed_steps(start, end, steps, solid.node);
        let before = Steps {
            begin: 0,
            end: limit,
        };
        if let Some(meeting) = first_meeting(&solid.rect, closed.both(before), first, rest) {
            limit = meeting.step;
            hit = Some(Hit {
                segment: meeting.segment,
                node: solid.node,
            });
        }
    }
    hit
}

/// The steps of a line of `steps` steps that may not meet the solid of the node.
fn closed_steps(start: &Choice, end: &Choice, steps: u64, node: i64) -> Steps
    requires start { IsChoice start.now }
    requires end { IsChoice end.now }
    requires fits { stub_length end.now ≤ steps }
    ensures { (w : Walk) → length w.steps ≡ steps → (k : ℕ) →
        IsAmong result k ↔ ((k < steps) × (MayMeet start.now w end.now k node → ⊥)) }
{
    let begin = if node == start.node {
        start.pin.distance(start.port)
    } else {
        0
    };
    let end = if node == end.node {
        steps - end.pin.distance(end.port)
    } else {
        steps
    };
    Steps { begin, end }
}

/// The first of these steps of the line that meets the rectangle.
fn first_meeting(rect: &Rect, among: Steps, first: Point, rest: &[Point]) -> Option<Meeting>
    requires rect_within { RectIsOnSheet rect.now }
    requires line { IsLineFrom first rest.now }
    ensures { MatchOption result
        (MeetsNone rect.now among first rest.now)
        (IsFirstMeeting rect.now among first rest.now) }
{
    let mut walked = 0;
    let mut from = first;
    for (i, &to) in rest.iter().enumerate() {
        let length = from.distance(to);
        let met = steps_inside(rect, from, from.heading(to)).both(among.within(walked, length));
        if met.begin < met.end {
            return Some(Meeting {
                step: walked + met.begin,
                segment: i as u32 + 1,
            });
        }
        walked += length;
        if among.end <= walked {
            return None;
        }
        from = to;
    }
    None
}

/// The steps that meet the rectangle, of all steps from the point in the direction.
fn steps_inside(rect: &Rect, from: Point, heading: Dir) -> Steps
    requires rect_within { RectIsOnSheet rect.now }
    requires from_within { PointIsOnSheet from }
    ensures { (k : ℕ) → IsAmong result k ↔ StepMeets rect.now (forward heading k from) heading }
{
    let Rect {
        left,
        top,
        right,
        bottom,
    } = *rect;
    let Point { x, y } = from;
    match heading {
        Dir::East => steps_between(top, y, bottom, left - x, right - x),
        Dir::South => steps_between(left, x, right, top - y, bottom - y),
        Dir::West => steps_between(top, y, bottom, x - right, x - left),
        Dir::North => steps_between(left, x, right, y - bottom, y - top),
    }
}

/// The steps from number `near` on and before number `far`, if `across` is between `low` and
/// `high`; otherwise none.
fn steps_between(low: i64, across: i64, high: i64, near: i64, far: i64) -> Steps
    ensures { (k : ℕ) → IsAmong result k ↔ ((low <ℤ across) × (across <ℤ high)
        × (near ≤ℤ pos k) × ((pos k +ℤ pos 1) ≤ℤ far)) }
{
    if low < across && across < high {
        Steps {
            begin: near.max(0) as u64,
            end: far.max(0) as u64,
        }
    } else {
        Steps { begin: 0, end: 0 }
    }
}
