//! The latest positions of a bundle, in one pass over its rules.

ghost use Rattle.std.specs.Prelude.{◌≡◌, pos, IfOk, MatchOption, All, length, map};
ghost use Rattle.std.specs.Bool.{MatchBool};
ghost use Rattle.std.specs.List.Sorted.{IsNonDecreasingBy, IsPermutation};
ghost use Rattle.separation_model.specs.Bundle.{IsBundle, IsGapUpTo, IsItem};
ghost use Rattle.separation_model.specs.Latest.{HasNoPositions, IsLatest};

use crate::bundle::{Bundle, Item, Rule};
use bumpalo::Bump;
use std::alloc::AllocError;

/// The rules by their left items, in ascending order, in the arena. The only error is out of memory.
pub fn rules_by_left<'a>(bump: &'a Bump, rules: &[Rule]) -> Result<Vec<Rule, &'a Bump>, AllocError>
    ensures same { IfOk result (λ sorted. IsPermutation rules.now sorted.items) }
    ensures sorted { IfOk result (λ sorted. IsNonDecreasingBy (λ rule. rule.left) sorted.items) }
{
    let mut sorted = Vec::from_slice(bump, rules)?;
    sorted.sort_unstable_by_key(|rule| rule.left);
    Ok(sorted)
}

/// Puts each item at its upper limit.
fn set_upper_limits(places: &mut [i64], items: &[Item])
    requires count { length places.old ≡ length items.now }
    requires items { All IsItem items.now }
    ensures { places.new ≡ map (λ item. item.hi) items.now }
{
    for index in 0..places.len() {
        places[index] = items[index].hi;
    }
}

/// Whether some positions meet the bundle with the gap. If so, the whole positions that do, each as
/// far right as in any, are in `places` after the call, in place of whatever was there.
///
/// Each item begins at its upper limit. Every rule goes forward, so with the rules taken by their
/// left items from the last one down, an item's place is settled before it limits another.
pub(crate) fn fill_latest(places: &mut [i64], bundle: &Bundle, by_left: &[Rule], gap: i64) -> bool
    requires count { length places.old ≡ length bundle.now.items.items }
    requires bundle { IsBundle bundle.now }
    requires same { IsPermutation bundle.now.rules.items by_left.now }
    requires sorted { IsNonDecreasingBy (λ rule. rule.left) by_left.now }
    requires gap { IsGapUpTo (pos 1000000) gap }
    ensures count { length places.new ≡ length places.old }
    ensures found { MatchBool result (IsLatest bundle.now gap places.new)
        (HasNoPositions bundle.now gap) }
{
    set_upper_limits(places, &bundle.items);
    for j in (0..by_left.len()).rev() {
        let rule = by_left[j];
        let left = rule.left as usize;
        let bound = places[rule.right as usize] - rule.asked(gap);
        if bound < bundle.items[left].lo {
            return false;
        }
        let place = places[left];
        if bound < place {
            places[left] = bound;
        }
    }
    true
}

/// The whole positions that meet the bundle with the gap, each as far right as in any that do;
/// `None` if there are none.
///
/// The gap is in thousandths, from 0 to 1,000,000, and `by_left` is the rules by their left items
/// (`rules_by_left`). The positions are in the arena. The only error is out of memory.
pub fn latest_positions<'a>(
    bump: &'a Bump,
    bundle: &Bundle,
    by_left: &[Rule],
    gap: i64,
) -> Result<Option<Vec<i64, &'a Bump>>, AllocError>
    requires bundle { IsBundle bundle.now }
    requires same { IsPermutation bundle.now.rules.items by_left.now }
    requires sorted { IsNonDecreasingBy (λ rule. rule.left) by_left.now }
    requires gap { IsGapUpTo (pos 1000000) gap }
    ensures { IfOk result (λ found. MatchOption found (HasNoPositions bundle.now gap)
        (λ places. IsLatest bundle.now gap places.items)) }
{
    let mut places = vec![in bump; 0; bundle.items.len()]?;
    if fill_latest(&mut places, bundle, by_left, gap) {
        Ok(Some(places))
    } else {
        Ok(None)
    }
}
