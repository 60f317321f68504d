//! The crossings of a horizontal line, one after the other from West to East.
ghost use Rattle.std.specs.Prelude.{◌≡◌, ◌<◌, ◌^◌, ◌++◌, ◌∷◌, [], ℕ, Some, IfSome, IsNone, IsSome, OnOk, length, slice_set};
ghost use Rattle.std.specs.FinMap as map;
ghost use Rattle.line_arena.specs.Arena.{IsFirst, IsNearest, IsOn, LiesFurther};
ghost use Rattle.plane_geom.specs.declared.point.Dir.TheVariants.{East};
ghost use Rattle.plane_geom.specs.declared.point.Way.TheVariants.{Vertical, Horizontal};
ghost use Rattle.line_lists.specs.Lists.{IsStopOf};
ghost use Rattle.line_lists.specs.Rows.{HasRowCome, IsColumnAt, IsToldFirst};

use crate::stop::{CrossNumber, Numbers, Stop};
use line_arena::{CrossId, LineArena, LineId};
use plane_geom::{Dir, Line};
use std::alloc::AllocError;

/// Tells the first crossing of the vertical line the number of the line.
pub fn tell_first(numbers: &mut [Numbers], arena: &LineArena, line: Line, id: LineId, number: u32)
    requires is { map.get arena.now.lines id ≡ Some line }
    requires way { line.way ≡ Vertical }
    requires places { length numbers.old ≡ arena.now.places }
    ensures places { length numbers.new ≡ length numbers.old }
    ensures told { IsToldFirst arena.now id number numbers.old numbers.new }
{
    arena.laws();
    if let Some(first) = arena.first_on_line(id) {
        numbers[arena.index(first)].vertical = number;
    }
}

/// The number of the vertical line through the crossing.
///
/// The lines further north have come, so a neighbour there has it; where there is none, the
/// crossing is the first one of that line, and was told.
fn column_at(numbers: &[Numbers], arena: &LineArena, crossing: CrossId) -> u32
    requires live { IsSome (map.get arena.now.crossings crossing) }
    requires places { length numbers.now ≡ arena.now.places }
    ensures { IsColumnAt arena.now numbers.now crossing result }
{
    match arena.next_on_line(crossing, Dir::North) {
        Some(north) => numbers[arena.index(north)].vertical,
        None => numbers[arena.index(crossing)].vertical,
    }
}

/// The crossing as a stop of the line.
fn stop_at(
    numbers: &[Numbers],
    arena: &LineArena,
    line: Line,
    id: LineId,
    crossing: CrossId,
) -> Stop
    requires is { map.get arena.now.lines id ≡ Some line }
    requires way { line.way ≡ Horizontal }
    requires on { IsOn arena.now id crossing }
    requires places { length numbers.now ≡ arena.now.places }
    requires few { arena.now.places < 2 ^ 32 }
    ensures crossing { result.crossing ≡ crossing }
    ensures stop { IsStopOf arena.now id line result }
    ensures column { IsColumnAt arena.now numbers.now crossing result.across }
{
    arena.laws();
    Stop {
        along: arena.point(crossing).along(line.way),
        crossing: CrossNumber::new(arena.index(crossing) as u32),
        across: column_at(numbers, arena, crossing),
    }
}

/// The first stop of the line.
fn first_stop(numbers: &[Numbers], arena: &LineArena, line: Line, id: LineId) -> Option<Stop>
    requires is { map.get arena.now.lines id ≡ Some line }
    requires way { line.way ≡ Horizontal }
    requires places { length numbers.now ≡ arena.now.places }
    requires few { arena.now.places < 2 ^ 32 }
    ensures stop { IfSome result (IsStopOf arena.now id line) }
    ensures column { IfSome result (λ s. IsColumnAt arena.now numbers.now s.crossing s.across) }
    ensures first { IfSome result (λ s. IsFirst arena.now id s.crossing) }
    ensures none { IsNone result → (c : ℕ) → IsOn arena.now id c → ⊥ }
{
    let crossing = arena.first_on_line(id)?;
    Some(stop_at(numbers, arena, line, id, crossing))
}

/// The stop of the line after this one.
fn next_stop(
    numbers: &[Numbers],
    arena: &LineArena,
    line: Line,
    id: LineId,
    stop: &Stop,
) -> Option<Stop>
    requires is { map.get arena.now.lines id ≡ Some line }
    requires way { line.way ≡ Horizontal }
    requires stop { IsStopOf arena.now id line stop.now }
    requires places { length numbers.now ≡ arena.now.places }
    requires few { arena.now.places < 2 ^ 32 }
    ensures stop { IfSome result (IsStopOf arena.now id line) }
    ensures column { IfSome result (λ s. IsColumnAt arena.now numbers.now s.crossing s.across) }
    ensures nearest { IfSome result (λ s. IsNearest arena.now East stop.now.crossing s.crossing) }
    ensures none { IsNone result → (c : ℕ) → LiesFurther arena.now East stop.now.crossing c → ⊥ }
{
    let crossing = arena.next_on_line(stop.crossing.id(), Dir::East)?;
    Some(stop_at(numbers, arena, line, id, crossing))
}

/// Appends the stop, and gives its crossing the numbers of its lines.
fn push_stop(
    stops: &mut Vec<Stop>,
    numbers: &mut [Numbers],
    arena: &LineArena,
    row: u32,
    stop: &Stop,
) -> Result<(), AllocError>
    requires live { IsSome (map.get arena.now.crossings stop.now.crossing) }
    requires places { length numbers.old ≡ arena.now.places }
    ensures stops { OnOk result (stops.new.items ≡ stops.old.items ++ stop.now ∷ []) }
    ensures numbers { numbers.new ≡ slice_set numbers.old stop.now.crossing
        (record { vertical = stop.now.across; horizontal = row }) }
    ensures within { stop.now.crossing < length numbers.old }
{
    numbers[arena.index(stop.crossing.id())] = Numbers {
        vertical: stop.across,
        horizontal: row,
    };
    stops.push(*stop)?;
    Ok(())
}

/// Appends all crossings of the horizontal line in order, and gives them the numbers of their lines.
pub fn push_stops(
    stops: &mut Vec<Stop>,
    numbers: &mut [Numbers],
    arena: &LineArena,
    line: Line,
    id: LineId,
    number: u32,
) -> Result<(), AllocError>
    requires is { map.get arena.now.lines id ≡ Some line }
    requires way { line.way ≡ Horizontal }
    requires places { length numbers.old ≡ arena.now.places }
    requires few { arena.now.places < 2 ^ 32 }
    ensures places { length numbers.new ≡ length numbers.old }
    ensures come { OnOk result (HasRowCome arena.now id line number
        stops.old.items stops.new.items numbers.old numbers.new) }
{
    arena.laws();
    let mut next = first_stop(numbers, arena, line, id);
    while let Some(stop) = next {
        push_stop(stops, numbers, arena, number, &stop)?;
        next = next_stop(numbers, arena, line, id, &stop);
    }
    Ok(())
}
