//! Laws of the lists of an arena, for callers.
ghost use Rattle.std.specs.Prelude.{◌≡◌, ◌<◌, ◌↔◌, ℕ, Some, slice_get};
ghost use Rattle.plane_geom.specs.Along.{rising};
ghost use Rattle.plane_geom.specs.declared.floor.Line.{Line};
ghost use Rattle.line_arena.specs.Arena.{Arena, IsArena, LiesFurther};
ghost use Rattle.line_lists.specs.declared.stop.Stop.{Stop as StopOf};
ghost use Rattle.line_lists.specs.Lists.{AreListsOf, HasNumber, IsNumbered, Lists, stops_of};

/// Each line of the arena has one number, and each number is that of one line.
pub fn one_number()
    ensures of_line { (a : Arena) (lists : Lists) → AreListsOf a lists → (id n m : ℕ) →
        HasNumber a lists id n → HasNumber a lists id m → n ≡ m }
    ensures of_number { (a : Arena) (lists : Lists) → IsArena a → AreListsOf a lists →
        (id other n : ℕ) → HasNumber a lists id n → HasNumber a lists other n → id ≡ other }
{}

/// Of two stops of a line the later one lies further in the rising direction.
pub fn stops_in_order()
    ensures { (a : Arena) (lists : Lists) → IsArena a → AreListsOf a lists →
        (id n : ℕ) (line : Line) → IsNumbered a lists id n line → (i j : ℕ) (s t : StopOf) →
        slice_get (stops_of lists n) i ≡ Some s → slice_get (stops_of lists n) j ≡ Some t →
        (i < j) ↔ LiesFurther a (rising line.way) s.crossing t.crossing }
{}

/// Each crossing that lies further in the rising direction than a stop of a line is a later stop.
pub fn further_is_later()
    ensures { (a : Arena) (lists : Lists) → IsArena a → AreListsOf a lists →
        (id n : ℕ) (line : Line) → IsNumbered a lists id n line → (i c : ℕ) (s : StopOf) →
        slice_get (stops_of lists n) i ≡ Some s → LiesFurther a (rising line.way) s.crossing c →
        (j : ℕ) × (t : StopOf) × (i < j) × (slice_get (stops_of lists n) j ≡ Some t) × (t.crossing ≡ c) }
{}
