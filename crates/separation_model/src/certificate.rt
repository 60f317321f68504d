//! The check of a solution: its positions meet the bundle, and its multipliers show that they are
//! least.

ghost use Rattle.std.specs.Prelude.{◌≡◌, ◌^◌, ◌+◌, ◌<◌, pos, ◌+ℤ◌, ◌-ℤ◌, ◌≤ℤ◌, ◌<ℤ◌, IsTrue, ◌↔◌, All, EachIndex, MatchOption, length};
ghost use Rattle.std.specs.Ordering.{MatchOrdering};
ghost use Rattle.separation_model.specs.Bundle.{IsBundle, IsItem, int_at, slack, PlacesRule, IsGapUpTo};
ghost use Rattle.separation_model.specs.Certified.{IsAccepted, from_left, from_right};
ghost use Rattle.separation_model.specs.Checked.{HasLengths, HasMultipliers, IsAtRest, IsMet, IsMultiplier, IsPush, KeepsLimits, KeepsLimitsAt, KeepsRule, KeepsRuleAt, KeepsAllLimits};
ghost use Rattle.separation_model.specs.Least.{IsLeast};
ghost use Rattle.separation_model.specs.Sum.{here};

use crate::bundle::{Bundle, Item, Rule, Solution};
use crate::displacement::{numerator_over, weighted_displacement};
use crate::position::Position;
use std::cmp::Ordering;

/// The greatest multiplier that is accepted.
const MOST_MULTIPLIER: i128 = 1 << 100;

/// The greatest sum of the multipliers of one item that is accepted.
const MOST_TOGETHER: i128 = 1 << 126;

/// Whether the solution's multipliers show that its positions meet the bundle with its gap, with
/// the least weighted sum of squared displacements. Takes no memory, and for each item one pass
/// over all rules.
///
/// The multipliers are those of Karush, Kuhn and Tucker (Boyd and Vandenberghe, "Convex
/// Optimization", section 5.5). Returns false also where a list has the wrong length, a denominator
/// is 0, the numerator of a position or a multiplier is above 2^100 in absolute value, the sum of
/// the multipliers of one item is above 2^126, or the gap is not from 0 to the wanted one.
pub fn verify(bundle: &Bundle, solution: &Solution) -> bool
    requires { IsBundle bundle.now }
    ensures accepted { IsTrue result ↔ IsAccepted bundle.now solution.now }
    ensures least { IsTrue result →
        IsLeast bundle.now solution.now.gap solution.now.den.items solution.now.pos.items }
{
    if solution.gap < 0 {
        return false;
    }
    if solution.gap > bundle.wanted {
        return false;
    }
    if !has_lengths(bundle, solution) {
        return false;
    }
    if !has_multipliers(solution) {
        return false;
    }
    if !keeps_limits(bundle, solution) {
        return false;
    }
    if !keeps_rules(bundle, solution) {
        return false;
    }
    are_at_rest(bundle, solution)
}

/// Whether each list has the length that the bundle requires.
fn has_lengths(bundle: &Bundle, solution: &Solution) -> bool
    ensures { IsTrue result ↔ HasLengths bundle.now solution.now }
{
    let items = bundle.items.len();
    solution.den.len() == items
        && solution.pos.len() == items
        && solution.mult.len() == bundle.rules.len()
        && solution.low.len() == items
        && solution.high.len() == items
}

/// Whether no multiplier is negative or too large.
fn are_multipliers(multipliers: &[i128]) -> bool
    ensures { IsTrue result ↔ All IsMultiplier multipliers.now }
{
    multipliers.iter().all(|m| 0 <= *m && *m <= MOST_MULTIPLIER)
}

/// Whether `least` is at most `most`, and equal to it where the multiplier is not 0.
fn is_met(least: i128, most: i128, multiplier: i128) -> bool
    ensures { IsTrue result ↔ IsMet least most multiplier }
{
    if multiplier == 0 {
        least <= most
    } else {
        least == most
    }
}

/// Whether all multipliers are at least 0 and none is too large.
fn has_multipliers(solution: &Solution) -> bool
    ensures { IsTrue result ↔ HasMultipliers solution.now }
{
    are_multipliers(&solution.mult)
        && are_multipliers(&solution.low)
        && are_multipliers(&solution.high)
}

impl Item {
    /// Whether the item may be at the fraction with these multipliers of its limits.
    fn keeps_limits(&self, den: u64, place: i128, low: i128, high: i128) -> bool
        requires item { IsItem self.now }
        requires den { 0 < den }
        ensures { IsTrue result ↔ KeepsLimits self.now den place low high }
    {
        is_met(numerator_over(self.lo, den), place, low)
            && is_met(place, numerator_over(self.hi, den), high)
    }
}

/// Whether each item is within its limits, with a nonzero multiplier only for a limit that it is
/// at.
fn keeps_limits(bundle: &Bundle, solution: &Solution) -> bool
    requires bundle { IsBundle bundle.now }
    requires lengths { HasLengths bundle.now solution.now }
    requires multipliers { HasMultipliers solution.now }
    ensures { IsTrue result ↔ EachIndex bundle.now.items.items (KeepsLimitsAt bundle.now solution.now) }
{
    for (i, item) in bundle.items.iter().enumerate() {
        let den = solution.den[i];
        if den == 0 {
            return false;
        }
        if !item.keeps_limits(den, solution.pos[i], solution.low[i], solution.high[i]) {
            return false;
        }
    }
    true
}

impl Solution<'_> {
    /// Compares the distance of the rule's items with the distance that the rule asks.
    fn compare_to_rule(&self, rule: &Rule) -> Ordering
        requires { PlacesRule self.now rule.now }
        ensures { let beyond = slack self.now.gap self.now.den.items self.now.pos.items rule.now in
            MatchOrdering result (beyond <ℤ pos 0) (beyond ≡ pos 0) (pos 0 <ℤ beyond) }
    {
        let left = self.position(rule.left as usize);
        let right = self.position(rule.right as usize);
        left.compare_gap(right, rule.asked(self.gap))
    }

    /// Whether the positions meet the rule, and meet it exactly where its multiplier is not 0.
    fn keeps_rule(&self, rule: &Rule, multiplier: i128) -> bool
        requires { PlacesRule self.now rule.now }
        ensures { IsTrue result ↔
            KeepsRule self.now.gap self.now.den.items self.now.pos.items rule.now multiplier }
    {
        match self.compare_to_rule(rule) {
            Ordering::Less => false,
            Ordering::Equal => multiplier == 0
                || self.den[rule.left as usize] == self.den[rule.right as usize],
            Ordering::Greater => multiplier == 0,
        }
    }
}

/// Whether the positions meet each rule, with a nonzero multiplier only where they meet it exactly.
fn keeps_rules(bundle: &Bundle, solution: &Solution) -> bool
    requires bundle { IsBundle bundle.now }
    requires limits { KeepsAllLimits bundle.now solution.now }
    requires gap { IsGapUpTo bundle.now.wanted solution.now.gap }
    ensures { IsTrue result ↔ EachIndex bundle.now.rules.items (KeepsRuleAt bundle.now solution.now) }
{
    for (j, rule) in bundle.rules.iter().enumerate() {
        if !solution.keeps_rule(rule, solution.mult[j]) {
            return false;
        }
    }
    true
}

/// The multiplier if the rule's end is the item, and 0 otherwise.
fn multiplier_at(end: u32, item: usize, multiplier: i128) -> i128
    requires { IsMultiplier multiplier }
    ensures value { result ≡ here end item multiplier }
    ensures multiplier { IsMultiplier result }
{
    if end as usize == item { multiplier } else { 0 }
}

/// The sums of the multipliers of an item's rules: of those in which it is on the right, and of
/// those in which it is on the left.
#[derive(Drop)]
struct Push {
    from_left: i128,
    from_right: i128,
}

/// The push of the item's rules; `None` where it exceeds the greatest sum that is accepted.
fn push_of(rules: &[Rule], multipliers: &[i128], item: usize) -> Option<Push>
    requires same { length multipliers.now ≡ length rules.now }
    requires multipliers { All IsMultiplier multipliers.now }
    ensures { let left = from_left item rules.now multipliers.now in
        let right = from_right item rules.now multipliers.now in
        MatchOption result (pos (2 ^ 126) <ℤ (left +ℤ right))
        (λ push. IsPush left right push.from_left push.from_right) }
{
    let mut push = Push {
        from_left: 0,
        from_right: 0,
    };
    for (j, rule) in rules.iter().enumerate() {
        push.from_left += multiplier_at(rule.right, item, multipliers[j]);
        push.from_right += multiplier_at(rule.left, item, multipliers[j]);
        if push.from_left + push.from_right > MOST_TOGETHER {
            return None;
        }
    }
    Some(push)
}

/// The multiplier at the index.
fn multiplier_of(multipliers: &[i128], index: usize) -> i128
    requires index { index < length multipliers.now }
    requires multipliers { All IsMultiplier multipliers.now }
    ensures value { result ≡ int_at multipliers.now index }
    ensures multiplier { IsMultiplier result }
{
    multipliers[index]
}

/// Whether the pushes to the right and to the left balance the displacement of an item, and their
/// sum is not too large.
fn balances(displacement: i128, rightward: i128, leftward: i128) -> bool
    requires rightward { pos 0 ≤ℤ rightward }
    requires leftward { pos 0 ≤ℤ leftward }
    requires together { (rightward +ℤ leftward) ≤ℤ pos (2 ^ 126 + 2 ^ 101) }
    ensures { IsTrue result ↔
        ((rightward +ℤ leftward) ≤ℤ pos (2 ^ 126)) × (displacement ≡ rightward -ℤ leftward) }
{
    rightward + leftward <= MOST_TOGETHER && displacement == rightward - leftward
}

/// Whether the multipliers of the item at the index balance its displacement, and their sum is not
/// too large.
fn is_item_at_rest(bundle: &Bundle, solution: &Solution, item: usize) -> bool
    requires bundle { IsBundle bundle.now }
    requires limits { KeepsAllLimits bundle.now solution.now }
    requires item { item < length bundle.now.items.items }
    ensures { IsTrue result ↔ IsAtRest bundle.now solution.now item }
{
    let Item { want, weight, .. } = bundle.items[item];
    let Position { pos, den } = solution.position(item);
    let displacement = weighted_displacement(weight, want, pos, den);
    let low = multiplier_of(&solution.low, item);
    let high = multiplier_of(&solution.high, item);
    match push_of(&bundle.rules, &solution.mult, item) {
        Some(push) => balances(displacement, push.from_left + low, push.from_right + high),
        None => false,
    }
}

/// Whether each item's multipliers balance its displacement, and their sum is not too large.
fn are_at_rest(bundle: &Bundle, solution: &Solution) -> bool
    requires bundle { IsBundle bundle.now }
    requires limits { KeepsAllLimits bundle.now solution.now }
    ensures { IsTrue result ↔ EachIndex bundle.now.items.items (IsAtRest bundle.now solution.now) }
{
    for i in 0..bundle.items.len() {
        if !is_item_at_rest(bundle, solution, i) {
            return false;
        }
    }
    true
}
