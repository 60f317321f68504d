//! The law that relates the crossings of an arena to those of a floor.
ghost use Rattle.std.specs.Prelude.{◌↔◌, ℕ};
ghost use Rattle.plane_geom.specs.Floor.{IsCrossing};
ghost use Rattle.plane_geom.specs.declared.floor.Floor.{Floor};
ghost use Rattle.plane_geom.specs.declared.point.Point.{Point};
ghost use Rattle.line_arena.specs.Arena.{Arena, IsArena, StandsAt};
ghost use Rattle.line_arena.specs.Stands.{StandsFor};

/// An arena that represents a floor has a crossing exactly at each of the floor's crossings.
pub fn crossings_of_floor()
    ensures { (floor : Floor) (a : Arena) → IsArena a → StandsFor floor a → (p : Point) →
        IsCrossing floor p ↔ ((c : ℕ) × StandsAt a c p) }
{}
