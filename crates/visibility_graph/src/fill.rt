//! Lines put into an arena with all their crossings.
ghost use Rattle.std.specs.Prelude.{◌≡◌, ◌+◌, ◌++◌, ◌≤◌, ◌<◌, ◌≤ℤ◌, [], ◌∷◌, true, Some, Contains, filter, count_by};
ghost use Rattle.std.specs.FinMap as map;
ghost use Rattle.line_arena.specs.Arena.{IsApart};
ghost use Rattle.line_arena.specs.Stands.{HasLine, IsComplete};
ghost use Rattle.plane_geom.specs.declared.floor.Line.{Line};
ghost use Rattle.plane_geom.specs.Order.{AreOrdered};
ghost use Rattle.visibility_graph.specs.Meeting.{coming, meets};
ghost use Rattle.visibility_graph.specs.Fill.{AreLines, ArePut, AreStrange, CanPut, IsCrossed, IsUncrossed};

use crate::meeting::{beside, is_reached};
use line_arena::{LineArena, LineId};
use plane_geom::{Line, Way};

/// Adds the `new` lines to those that stay, which are all lines of the arena, with all their
/// crossings.
///
/// Takes no memory.
pub fn put_lines(arena: &mut LineArena, new: &[Line], stay: &[Line])
    requires { CanPut arena.old new.now stay.now }
    ensures { ArePut arena.old arena.new new.now (coming new.now stay.now) }
{
    arena.laws();
    for (place, line) in new.iter().enumerate() {
        let (before, _) = new.split_at(place);
        put_crossed(arena, line, stay, before);
    }
}

/// Adds a line and its crossings with the lines that stay and with those that were added before it.
fn put_crossed(arena: &mut LineArena, line: &Line, stay: &[Line], before: &[Line])
    requires lines { AreLines arena.old (stay.now ++ before.now) }
    requires complete { IsComplete arena.old }
    requires stay_ordered { AreOrdered stay.now }
    requires before_ordered { AreOrdered before.now }
    requires strange { AreStrange stay.now before.now }
    requires long { line.now.lo ≤ℤ line.now.hi }
    requires apart { IsApart arena.old line.now }
    requires room_for_line { 0 < arena.old.spare_lines }
    requires room_for_crossings { count_by (meets line.now) stay.now + count_by (meets line.now) before.now ≤ arena.old.spare_crossings }
    ensures { ArePut arena.old arena.new (line.now ∷ []) (count_by (meets line.now) stay.now + count_by (meets line.now) before.now) }
{
    arena.laws();
    let id = arena.put_line(*line);
    cross(arena, id, line, stay);
    cross(arena, id, line, before);
}

/// Puts the crossings of the line, which has the id, with those of the others that it meets.
fn cross(arena: &mut LineArena, id: LineId, line: &Line, others: &[Line])
    requires ordered { AreOrdered others.now }
    requires there { map.get arena.old.lines id ≡ Some line.now }
    requires others_there { (l : Line) → Contains others.now l → HasLine arena.old l }
    requires uncrossed { (l : Line) → Contains others.now l → IsUncrossed arena.old id line.now.way l }
    requires room { count_by (meets line.now) others.now ≤ arena.old.spare_crossings }
    ensures { IsCrossed arena.old arena.new id line.now.way (filter (meets line.now) others.now) }
{
    arena.laws();
    // Where all lines of the arena are the others, each stands at its own place among them; where they are not,
    // mostly after the one before it.
    let (mut place, here) = beside(line, others);
    for other in here {
        if is_reached(line, other) {
            place = put_meeting(arena, id, line, other, place);
        }
        place = place.saturating_add(1);
    }
}

/// Puts the crossing of the line, which has the id, with one that it meets, and returns the place
/// of that one.
///
/// Takes constant time to find it at the place `near` among the lines of the arena.
fn put_meeting(arena: &mut LineArena, id: LineId, line: &Line, other: &Line, near: usize) -> usize
    requires there { map.get arena.old.lines id ≡ Some line.now }
    requires other_there { HasLine arena.old other.now }
    requires meets { meets line.now other.now ≡ true }
    requires uncrossed { IsUncrossed arena.old id line.now.way other.now }
    requires room { 0 < arena.old.spare_crossings }
    ensures { IsCrossed arena.old arena.new id line.now.way (other.now ∷ []) }
{
    let Some(found) = arena.line_near(*other, near) else {
        unreachable!()
    };
    let (other, place) = found;
    match line.way {
        Way::Vertical => arena.put_crossing(id, other),
        Way::Horizontal => arena.put_crossing(other, id),
    };
    place
}
