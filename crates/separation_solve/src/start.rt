//! The places at which the solver begins: whole numbers that meet the bundle.

ghost use Rattle.std.specs.Prelude.{◌≡◌, ◌≤◌, pos, All, EachIndex, IfOk, length, map, ◌++◌, ◌∷◌, []};
ghost use Rattle.std.specs.Int.{int_min};
ghost use Rattle.std.specs.List.Sorted.{IsNonDecreasingBy};
ghost use Rattle.plane_geom.specs.Point.{IsCoordinate};
ghost use Rattle.separation_model.specs.Bundle.{IsBundle, int_at, most_items, IsGapUpTo};
ghost use Rattle.separation_model.specs.Gap.{IsGap};
ghost use Rattle.separation_solve.specs.Fraction.{whole};
ghost use Rattle.separation_model.specs.Latest.{IsRuleKept};
ghost use Rattle.separation_solve.specs.Start.{AreAtMost, AreStartPlaces, IsForward};

use crate::fraction::Fraction;
use crate::network::wants_of;
use bumpalo::Bump;
use separation_model::{Bundle, Rule, latest_positions, rules_by_left};
use std::alloc::AllocError;
use std::iter::once;

/// Whole places that meet the bundle with the gap, and last the wall's place.
///
/// Each item is at its want, or as little to the right of it as the rules allow, but never to the
/// right of its latest place.
pub fn start_places<'a>(
    bump: &'a Bump,
    bundle: &Bundle,
    gap: i64,
) -> Result<Vec<Fraction, &'a Bump>, AllocError>
    requires bundle { IsBundle bundle.now }
    requires gap { IsGap bundle.now gap }
    ensures { IfOk result (λ places. AreStartPlaces bundle.now gap places.items) }
{
    let by_left = rules_by_left(bump, &bundle.rules)?;
    let Some(latest) = latest_positions(bump, bundle, &by_left, gap)? else {
        unreachable!()
    };
    let mut places = wants_of(bump, &bundle.items)?;
    press_on(&mut places, &by_left, gap);
    draw_back(&mut places, &latest);
    with_wall(bump, &places)
}

/// Moves items to the right until all rules are met. Every rule goes forward, so none is broken
/// again.
fn press_on(places: &mut [i64], by_left: &[Rule], gap: i64)
    requires rules { All (IsForward (length places.old)) by_left.now }
    requires sorted { IsNonDecreasingBy (λ rule. rule.left) by_left.now }
    requires gap { IsGapUpTo (pos 1000000) gap }
    requires few { length places.old ≤ most_items }
    requires on_sheet { EachIndex places.old (λ i. IsCoordinate (int_at places.old i)) }
    ensures on { AreAtMost places.new places.old }
    ensures keeps { All (IsRuleKept gap places.new) by_left.now }
{
    for index in 0..by_left.len() {
        let rule = by_left[index];
        let right = rule.right as usize;
        let least = places[rule.left as usize] + rule.asked(gap);
        if places[right] < least {
            places[right] = least;
        }
    }
}

/// Moves each item back to its latest place, if it is to the right of it.
fn draw_back(places: &mut [i64], latest: &[i64])
    requires { length places.old ≡ length latest.now }
    ensures { EachIndex latest.now (λ i.
        int_at places.new i ≡ int_min (int_at latest.now i) (int_at places.old i)) }
{
    for index in 0..places.len() {
        if latest[index] < places[index] {
            places[index] = latest[index];
        }
    }
}

/// The whole places, followed by the wall's place.
fn with_wall<'a>(bump: &'a Bump, places: &[i64]) -> Result<Vec<Fraction, &'a Bump>, AllocError>
    ensures { IfOk result (λ all. all.items ≡ map whole places.now ++ whole (pos 0) ∷ []) }
{
    places
        .iter()
        .map(|at| Fraction::whole(*at))
        .chain(once(Fraction::whole(0)))
        .collect(bump)
}
