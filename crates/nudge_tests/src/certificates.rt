//! Widest gaps, latest positions and multipliers that were worked by hand, roundings on both sides
//! of 0, and each law once.
ghost use Rattle.std.specs.Prelude.{pos, IfOk};
ghost use Rattle.separation_model.specs.Bundle.{IsBundle, IsGapUpTo};

use crate::small::{small_bundle, small_item, small_solution};
use bumpalo::Bump;
use separation_model::{
    Bundle, Solution, latest_positions, met_positions_are_on_sheet, rules_by_left, verify,
    widest_gap,
};
use std::alloc::{AllocError, Global};
use std::test::Fail;

/// Two items wanted at 0, which may go left by `below`.
fn two<'a>(bump: &'a Bump, below: u16, spaced: bool, wanted: u16) -> Result<Bundle<'a>, AllocError>
    ensures { IfOk result IsBundle }
{
    let item = small_item(0, below, 0, false);
    small_bundle(bump, item, item, spaced, wanted)
}

fn gap_of(alloc: Global, below: u16, spaced: bool, wanted: u16) -> Result<i64, AllocError> {
    let bump = Bump::new(alloc);
    let bundle = two(&bump, below, spaced, wanted)?;
    widest_gap(&bump, &bundle)
}

#[test]
fn finds_the_widest_gap(rt: HostRuntime) -> Result<(), Fail> {
    for (below, spaced, wanted, want) in [
        (5000, true, 8000, 5000),
        (5000, false, 8000, 8000),
        (0, true, 8000, 0),
        (5000, true, 4000, 4000),
    ] {
        assert_eq!(rt; gap_of(rt.alloc(), below, spaced, wanted)?, want);
    }
    Ok(())
}

fn first_of(places: Option<Vec<i64, &Bump>>) -> Option<i64> {
    places?.first().copied()
}

/// The first of the latest positions.
fn latest_first(bump: &Bump, bundle: &Bundle, gap: i64) -> Result<Option<i64>, AllocError>
    requires bundle { IsBundle bundle.now }
    requires gap { IsGapUpTo (pos 1000000) gap }
{
    let by_left = rules_by_left(bump, &bundle.rules)?;
    let latest = latest_positions(bump, bundle, by_left.as_slice(), gap)?;
    Ok(first_of(latest))
}

fn latest_left(alloc: Global, gap: u16) -> Result<Option<i64>, AllocError> {
    let bump = Bump::new(alloc);
    let bundle = two(&bump, 5000, true, 8000)?;
    latest_first(&bump, &bundle, i64::from(gap))
}

#[test]
fn finds_the_latest_positions(rt: HostRuntime) -> Result<(), Fail> {
    for (gap, left) in [(0, Some(0)), (5000, Some(-5000)), (5001, None)] {
        assert_eq!(rt; latest_left(rt.alloc(), gap)?, left, "gap {gap}");
    }
    Ok(())
}

/// The item's coordinate, if the solution is accepted and has the item.
fn rounded(bundle: &Bundle, solution: &Solution, item: usize) -> Option<i64>
    requires { IsBundle bundle.now }
{
    if !verify(bundle, solution) {
        return None;
    }
    if item >= solution.pos.len() {
        return None;
    }
    met_positions_are_on_sheet();
    Some(solution.rounded_down(item))
}

fn rounded_halves(bump: &Bump, bundle: &Bundle, item: usize) -> Result<Option<i64>, AllocError>
    requires { IsBundle bundle.now }
{
    let halves = small_solution(bump, 3, 2, [-3, 3], 6, [0, 0], [0, 0])?;
    Ok(rounded(bundle, &halves, item))
}

/// The coordinate of the item in a bundle whose items are wanted at one place and have to be apart.
fn rounded_apart(alloc: Global, item: usize) -> Result<Option<i64>, AllocError> {
    let far = small_item(0, 30000, 0, false);
    let right = small_item(0, 0, 30000, false);
    let bump = Bump::new(alloc);
    let bundle = small_bundle(&bump, far, right, true, 3)?;
    rounded_halves(&bump, &bundle, item)
}

#[test]
fn rounds_down(rt: HostRuntime) -> Result<(), Fail> {
    assert_eq!(rt; rounded_apart(rt.alloc(), 0)?, Some(-2));
    assert_eq!(rt; rounded_apart(rt.alloc(), 1)?, Some(1));
    Ok(())
}

/// An item by its want, how far it may go left and right, and whether it is heavy.
type Plain = (i16, u16, u16, bool);

/// Two items, the wanted gap, which is also the solution's, its denominator and places, its
/// multipliers of the rule and of the upper limits, and whether it is accepted.
type Verified = (Plain, Plain, u16, u64, [i128; 2], i128, [i128; 2], bool);

const EDGE: Plain = (-24000, 40000, 0, false);

const HEAVY: Plain = (0, 30000, 30000, true);

const LIGHT: Plain = (0, 30000, 30000, false);

const VERIFIED: [Verified; 8] = [
    (EDGE, EDGE, 4000, 1, [-28000, -24000], 8000, [0, 8000], true),
    (EDGE, EDGE, 4000, 1, [-24000, -24000], 0, [0, 0], false),
    (EDGE, EDGE, 4000, 1, [-32000, -24000], 0, [0, 0], false),
    (
        EDGE,
        EDGE,
        4000,
        1,
        [-28000, -24000],
        -8000,
        [0, -8000],
        false,
    ),
    (EDGE, EDGE, 4000, 1, [-28000, -24000], 8000, [0, 0], false),
    (
        (0, 30000, 0, false),
        (0, 0, 30000, false),
        1,
        2,
        [-1, 1],
        2,
        [0, 0],
        true,
    ),
    (HEAVY, LIGHT, 4000, 1, [-1000, 3000], 6000, [0, 0], true),
    (LIGHT, LIGHT, 4000, 1, [-1000, 3000], 6000, [0, 0], false),
];

fn accepts(bump: &Bump, bundle: &Bundle, row: &Verified) -> Result<bool, AllocError>
    requires { IsBundle bundle.now }
{
    let (_, _, gap, den, places, mult, high, _) = *row;
    let solution = small_solution(bump, i64::from(gap), den, places, mult, [0, 0], high)?;
    Ok(verify(bundle, &solution))
}

/// Whether the row's solution is accepted, if its items are in order.
fn accepts_row(alloc: Global, row: &Verified) -> Result<Option<bool>, AllocError> {
    let left = small_item(row.0.0, row.0.1, row.0.2, row.0.3);
    let right = small_item(row.1.0, row.1.1, row.1.2, row.1.3);
    if left.want > right.want {
        return Ok(None);
    }
    let bump = Bump::new(alloc);
    let bundle = small_bundle(&bump, left, right, true, row.2)?;
    let accepted = accepts(&bump, &bundle, row);
    accepted.map(|accepted| Some(accepted))
}

#[test]
fn verifies_multipliers(rt: HostRuntime) -> Result<(), Fail> {
    for (place, row) in VERIFIED.iter().enumerate() {
        assert_eq!(rt; accepts_row(rt.alloc(), row)?, Some(row.7), "row {place}");
    }
    Ok(())
}
