//! Bundles and solutions made of plain numbers, which the calls on bundles accept.

ghost use Rattle.std.specs.Prelude.{◌≡◌, ◌∷◌, [], pos, ◌+ℤ◌, ◌-ℤ◌, ◌≤ℤ◌, IfOk, if◌then◌else◌};
ghost use Rattle.separation_model.specs.Bundle.{IsBundle, IsItem};
ghost use Rattle.nudge_tests.specs.Small.{first_before_second};

use bumpalo::Bump;
use separation_model::{Bundle, Item, Rule, Solution};
use std::alloc::AllocError;

/// An item that is wanted at `want` and may go left by `below` and right by `above`, all in
/// thousandths of a GML unit. Its weight is 3 if it is heavy, and otherwise 1.
pub(crate) fn small_item(want: i16, below: u16, above: u16, heavy: bool) -> Item
    ensures want { result.want ≡ want }
    ensures lo { result.lo ≡ want -ℤ pos below }
    ensures hi { result.hi ≡ want +ℤ pos above }
    ensures weight { result.weight ≡ (if heavy then 3 else 1) }
    ensures item { IsItem result }
{
    let want = i64::from(want);
    Item {
        want,
        lo: want - i64::from(below),
        hi: want + i64::from(above),
        weight: if heavy { 3 } else { 1 },
    }
}

/// Two items, the rule that the left one stays before the right one, and the wanted gap in
/// thousandths of a GML unit.
///
/// Both items are as described at `Item`, and the right one's want is at least that of the left
/// one. The rule asks for the gap if it is spaced. The only error is out of memory.
pub(crate) fn small_bundle<'a>(
    bump: &'a Bump,
    left: Item,
    right: Item,
    spaced: bool,
    wanted: u16,
) -> Result<Bundle<'a>, AllocError>
    requires left { IsItem left }
    requires right { IsItem right }
    requires ordered { left.want ≤ℤ right.want }
    ensures items { IfOk result (λ b. b.items.items ≡ left ∷ right ∷ []) }
    ensures rules { IfOk result (λ b. b.rules.items ≡ first_before_second spaced ∷ []) }
    ensures wanted { IfOk result (λ b. b.wanted ≡ pos wanted) }
    ensures sound { IfOk result IsBundle }
{
    let items = vec![in bump; left, right]?;
    let rule = Rule {
        left: 0,
        right: 1,
        spaced,
    };
    let rules = vec![in bump; rule]?;
    Ok(Bundle {
        items,
        rules,
        wanted: i64::from(wanted),
    })
}

/// Two positions over one denominator, with the multipliers of the rule and of the limits.
///
/// The gap is in thousandths of a GML unit, and each item is at its number of `places` over `den`
/// thousandths. Any numbers are accepted: `verify` decides whether they solve a bundle. The only
/// error is out of memory.
pub(crate) fn small_solution<'a>(
    bump: &'a Bump,
    gap: i64,
    den: u64,
    places: [i128; 2],
    mult: i128,
    low: [i128; 2],
    high: [i128; 2],
) -> Result<Solution<'a>, AllocError>
    ensures gap { IfOk result (λ s. s.gap ≡ gap) }
    ensures den { IfOk result (λ s. s.den.items ≡ den ∷ den ∷ []) }
    ensures pos { IfOk result (λ s. s.pos.items ≡ places) }
    ensures mult { IfOk result (λ s. s.mult.items ≡ mult ∷ []) }
    ensures low { IfOk result (λ s. s.low.items ≡ low) }
    ensures high { IfOk result (λ s. s.high.items ≡ high) }
{
    Ok(Solution {
        gap,
        den: vec![in bump; den, den]?,
        pos: Vec::from_array(bump, places)?,
        mult: vec![in bump; mult]?,
        low: Vec::from_array(bump, low)?,
        high: Vec::from_array(bump, high)?,
    })
}
