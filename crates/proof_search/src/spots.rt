//! The crossings of an arena, by y and then by x.
ghost use Rattle.std.specs.Prelude.{
  ◌≡◌,
  ◌↔◌,
  ℕ,
  None,
  Some,
  All,
  IfOk,
  IfSome,
  IsNone,
  IsTrue,
  OnOk,
};
ghost use Rattle.std.specs.FinMap as map;
ghost use Rattle.line_arena.specs.Arena.{IsFirst, IsNearest, IsOn, LiesFurther, StandsAt};
ghost use Rattle.plane_geom.specs.declared.floor.Line.{Line};
ghost use Rattle.plane_geom.specs.declared.point.Dir.TheVariants.{East as to_east};
ghost use Rattle.plane_geom.specs.declared.point.Way.TheVariants.{Horizontal as across};
ghost use Rattle.proof_search.specs.Spots.{
  AreOfLines,
  AreRising,
  AreSpots,
  HasLineCome,
  IsBeforeLine,
};

use line_arena::{CrossId, LineArena, LineId};
use plane_geom::{Dir, Line, Point, Way};
use std::alloc::{AllocError, Global};

/// A crossing, and the point where it stands.
#[derive(Clone, Copy, Debug)]
pub struct Spot {
    pub at: Point,
    pub crossing: CrossId,
}

/// Whether the line is horizontal.
fn is_horizontal(line: &Line) -> bool
    ensures { IsTrue result ↔ (line.now.way ≡ across) }
{
    line.way == Way::Horizontal
}

/// The first crossing on the line.
fn first_spot(arena: &LineArena, line: LineId) -> Option<Spot>
    requires live { (l : Line) × (map.get arena.now.lines line ≡ Some l) }
    ensures stands { IfSome result (λ s. StandsAt arena.now s.crossing s.at) }
    ensures first { IfSome result (λ s. IsFirst arena.now line s.crossing) }
    ensures none { IsNone result → (c : ℕ) → IsOn arena.now line c → ⊥ }
{
    let crossing = arena.first_on_line(line)?;
    Some(Spot {
        at: arena.point(crossing),
        crossing,
    })
}

/// The next crossing in the east.
fn next_spot(arena: &LineArena, spot: &Spot) -> Option<Spot>
    requires stands { StandsAt arena.now spot.now.crossing spot.now.at }
    ensures stands { IfSome result (λ s. StandsAt arena.now s.crossing s.at) }
    ensures nearest { IfSome result
        (λ s. IsNearest arena.now to_east spot.now.crossing s.crossing) }
    ensures none { IsNone result →
        (c : ℕ) → LiesFurther arena.now to_east spot.now.crossing c → ⊥ }
{
    let crossing = arena.next_on_line(spot.crossing, Dir::East)?;
    Some(Spot {
        at: arena.point(crossing),
        crossing,
    })
}

/// Puts in the crossings of a horizontal line, which stands after all that are there.
fn push_line(
    spots: &mut Vec<Spot>,
    arena: &LineArena,
    line: Line,
    id: LineId,
) -> Result<(), AllocError>
    requires is { map.get arena.now.lines id ≡ Some line }
    requires way { line.way ≡ across }
    requires rise { AreRising spots.old.items }
    requires before { All (IsBeforeLine line) spots.old.items }
    ensures { OnOk result (HasLineCome arena.now line id spots.old.items spots.new.items) }
{
    arena.laws();
    let mut next = first_spot(arena, id);
    while let Some(spot) = next {
        next = next_spot(arena, &spot);
        spots.push(spot)?;
    }
    Ok(())
}

/// The crossings of the arena, by y and then by x.
pub(crate) fn crossings_in_order(alloc: Global, arena: &LineArena) -> Result<Vec<Spot>, AllocError>
    ensures { IfOk result (λ v. AreSpots arena.now v.items) }
{
    arena.laws();
    let mut spots = Vec::new(alloc);
    for (line, id) in arena.lines_in_order() {
        if is_horizontal(line) {
            push_line(&mut spots, arena, *line, *id)?;
        }
    }
    Ok(spots)
}
