//! The crossing of a row, looked for near that of the row before.
ghost use Rattle.std.specs.Prelude.{◌≡◌, ◌↔◌, ℕ, IfSome, IsNone, IsSome};
ghost use Rattle.std.specs.FinMap as map;
ghost use Rattle.line_arena.specs.Arena.{IsArena, StandsAt};

use line_arena::{CrossId, LineArena};
use plane_geom::{Dir, Point};

/// The number of crossings that are looked at before the arena is asked.
const MOST_STEPS: usize = 64;

/// The crossing at the point, if it is among the next ones in the East.
fn crossing_east(arena: &LineArena, from: CrossId, at: Point) -> Option<CrossId>
    requires live { IsSome (map.get arena.now.crossings from) }
    ensures { IfSome result (λ c. StandsAt arena.now c at) }
{
    let mut crossing = from;
    for _ in 0..MOST_STEPS {
        let there = arena.point(crossing);
        if there == at {
            return Some(crossing);
        }
        if there.y != at.y || there.x > at.x {
            return None;
        }
        crossing = arena.next_on_line(crossing, Dir::East)?;
    }
    None
}

/// The crossing at the point. `None` where no crossing stands there.
///
/// Rows rise, so it is mostly one of the next ones in the East of that of the row before.
pub(crate) fn crossing_near(arena: &LineArena, near: Option<CrossId>, at: Point) -> Option<CrossId>
    requires live { IfSome near (λ c. IsSome (map.get arena.now.crossings c)) }
    ensures found { IfSome result (λ c. StandsAt arena.now c at) }
    ensures absent { IsNone result ↔ ((c : ℕ) → StandsAt arena.now c at → ⊥) }
{
    if let Some(near) = near {
        if let Some(crossing) = crossing_east(arena, near, at) {
            return Some(crossing);
        }
    }
    arena.crossing_at(at)
}
