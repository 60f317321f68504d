//! Least positions that were worked by hand, with all multipliers, and those of rows of equal
//! items.
ghost use Rattle.std.specs.Prelude.{◌≤◌, pos, ◌≤ℤ◌, IfOk, All};
ghost use Rattle.separation_solve.specs.Start.{IsForward};
ghost use Rattle.separation_model.specs.Bundle.{IsBundle, IsItem};

use crate::small::{small_bundle, small_item};
use bumpalo::Bump;
use separation_solve::{Bundle, Item, Rule, Solution, solve, verify, widest_gap};
use std::alloc::{AllocError, Global};
use std::test::Fail;

/// The least positions of the bundle for its widest gap.
fn solved<'a>(bump: &'a Bump, bundle: &Bundle) -> Result<Solution<'a>, AllocError>
    requires { IsBundle bundle.now }
{
    let gap = widest_gap(bump, bundle)?;
    solve(bump, bundle, gap)
}

/// An item by its want, how far it may go left and right, and whether it is heavy.
type Plain = (i16, u16, u16, bool);

/// Two items, whether they are spaced, and the wanted gap; then the gap, the denominator and
/// places, and the multipliers of the rule and of the upper limits. Those of the lower limits are
/// 0.
type Solved = (
    Plain,
    Plain,
    bool,
    u16,
    i64,
    u64,
    [i128; 2],
    i128,
    [i128; 2],
);

const WITHIN: Plain = (0, 5000, 0, false);

const EDGE: Plain = (-24000, 40000, 0, false);

const HEAVY: Plain = (0, 30000, 30000, true);

const LIGHT: Plain = (0, 30000, 30000, false);

const FIXED: Plain = (700, 0, 0, false);

const AT_LIMITS: [Solved; 3] = [
    (
        WITHIN,
        WITHIN,
        true,
        8000,
        5000,
        1,
        [-5000, 0],
        10000,
        [0, 10000],
    ),
    (
        EDGE,
        EDGE,
        true,
        4000,
        4000,
        1,
        [-28000, -24000],
        8000,
        [0, 8000],
    ),
    (
        LIGHT,
        FIXED,
        true,
        1000,
        1000,
        1,
        [-300, 700],
        600,
        [0, 600],
    ),
];

const BETWEEN_LIMITS: [Solved; 4] = [
    (
        (0, 30000, 0, false),
        (0, 0, 30000, false),
        true,
        1,
        1,
        2,
        [-1, 1],
        2,
        [0, 0],
    ),
    (
        (0, 30000, 0, false),
        (0, 0, 30000, false),
        true,
        4000,
        4000,
        1,
        [-2000, 2000],
        4000,
        [0, 0],
    ),
    (
        HEAVY,
        LIGHT,
        true,
        4000,
        4000,
        1,
        [-1000, 3000],
        6000,
        [0, 0],
    ),
    (LIGHT, FIXED, false, 1000, 1000, 1, [0, 700], 0, [0, 0]),
];

/// Whether the solution is that of the row.
fn is_as_wanted(solution: &Solution, row: &Solved) -> bool {
    solution.gap == row.4
        && solution.den.as_slice() == [row.5, row.5].as_slice()
        && solution.pos.as_slice() == row.6.as_slice()
        && solution.mult.as_slice() == [row.7].as_slice()
        && solution.low.as_slice() == [0, 0].as_slice()
        && solution.high.as_slice() == row.8.as_slice()
}

/// Whether the least positions for the widest gap are those of the row, and verified.
fn solves(bump: &Bump, bundle: &Bundle, row: &Solved) -> Result<bool, AllocError>
    requires { IsBundle bundle.now }
{
    let solution = solved(bump, bundle)?;
    Ok(is_as_wanted(&solution, row) && verify(bundle, &solution))
}

fn solves_row(bump: &Bump, row: &Solved) -> Result<bool, AllocError> {
    let left = small_item(row.0.0, row.0.1, row.0.2, row.0.3);
    let right = small_item(row.1.0, row.1.1, row.1.2, row.1.3);
    if left.want > right.want {
        return Ok(false);
    }
    let bundle = small_bundle(bump, left, right, row.2, row.3)?;
    solves(bump, &bundle, row)
}

fn solve_each(alloc: Global, rows: &[Solved]) -> Result<bool, AllocError> {
    let bump = Bump::new(alloc);
    for row in rows {
        if !solves_row(&bump, row)? {
            return Ok(false);
        }
    }
    Ok(true)
}

#[test]
fn solves_at_limits(rt: HostRuntime) -> Result<(), Fail> {
    assert!(rt; solve_each(rt.alloc(), &AT_LIMITS)?);
    Ok(())
}

#[test]
fn solves_between_limits(rt: HostRuntime) -> Result<(), Fail> {
    assert!(rt; solve_each(rt.alloc(), &BETWEEN_LIMITS)?);
    Ok(())
}

/// Rules from each item to the next, all spaced.
fn chain<'a>(bump: &'a Bump, count: u32) -> Result<Vec<Rule, &'a Bump>, AllocError>
    ensures { IfOk result (λ rules. All (IsForward count) rules.items) }
{
    let mut rules = Vec::new(bump);
    for right in 1..count {
        rules.push(Rule {
            left: right - 1,
            right,
            spaced: true,
        })?;
    }
    Ok(rules)
}

/// `count` items like this one, with a spaced rule from each to the next.
fn row<'a>(bump: &'a Bump, item: Item, count: u32, wanted: i64) -> Result<Bundle<'a>, AllocError>
    requires item { IsItem item }
    requires count { count ≤ 1000 }
    requires wanted_low { pos 0 ≤ℤ wanted }
    requires wanted_high { wanted ≤ℤ pos 1000000 }
    ensures { IfOk result IsBundle }
{
    let items = vec![in bump; item; count as usize]?;
    let rules = chain(bump, count)?;
    Ok(Bundle {
        items,
        rules,
        wanted,
    })
}

/// The gap of a row of items, its first place and its last one.
type Ends = (i64, i128, i128);

/// Whether the solution has these ends, and whole places.
fn has_ends(solution: &Solution, ends: Ends) -> bool {
    solution.gap == ends.0
        && solution.den.iter().all(|den| *den == 1)
        && solution.pos.first() == Some(&ends.1)
        && solution.pos.last() == Some(&ends.2)
}

fn solves_ends(bump: &Bump, bundle: &Bundle, ends: Ends) -> Result<bool, AllocError>
    requires { IsBundle bundle.now }
{
    let solution = solved(bump, bundle)?;
    Ok(has_ends(&solution, ends) && verify(bundle, &solution))
}

fn solves_row_of_thousand(alloc: Global) -> Result<bool, AllocError> {
    let bump = Bump::new(alloc);
    let bundle = row(&bump, small_item(0, 30000, 30000, false), 1000, 4000)?;
    solves_ends(&bump, &bundle, (60, -29970, 29970))
}

#[test]
fn solves_a_long_row(rt: HostRuntime) -> Result<(), Fail> {
    assert!(rt; solves_row_of_thousand(rt.alloc())?);
    Ok(())
}

fn solves_row_of_one(alloc: Global) -> Result<bool, AllocError> {
    let bump = Bump::new(alloc);
    let bundle = row(&bump, small_item(700, 300, 300, true), 1, 4000)?;
    solves_ends(&bump, &bundle, (4000, 700, 700))
}

#[test]
fn solves_an_item_without_rules(rt: HostRuntime) -> Result<(), Fail> {
    assert!(rt; solves_row_of_one(rt.alloc())?);
    Ok(())
}
