//! Bundles and solutions: the input and the output of the solver.

ghost use Rattle.std.specs.Prelude.{◌≡◌};
ghost use Rattle.separation_model.specs.Bundle.{asked};

use crate::position::{Position, rounded_down};
use bumpalo::Bump;

/// The most items that a bundle may have. The law `most_items_is_the_bound` says that definitions
/// use the same number.
pub const MOST_ITEMS: usize = 850_000_000;

/// Something that is wanted at `want` and has to be from `lo` to `hi`, all in thousandths of a GML
/// unit.
///
/// The limits are on the sheet, and `want` is within them. The weight, from 1 to 4, is the factor
/// of its squared displacement.
#[derive(Clone, Copy, Debug, PartialEq, Eq)]
pub struct Item {
    pub want: i64,
    pub lo: i64,
    pub hi: i64,
    pub weight: u32,
}

/// The left item stays before the right one: by at least the gap if the rule is spaced, otherwise
/// by at least 0.
///
/// Items are named by their indexes in the bundle, from 0. A rule goes forward: `left` is less than
/// `right`, and `right` is an item of the bundle, whose `want` is at least that of the left item.
#[derive(Clone, Copy, Debug, PartialEq, Eq)]
pub struct Rule {
    pub left: u32,
    pub right: u32,
    pub spaced: bool,
}

impl Rule {
    /// The least distance that the rule asks of its items, for a gap.
    pub fn asked(&self, gap: i64) -> i64
        ensures { result ≡ asked gap self.now }
    {
        if self.spaced { gap } else { 0 }
    }
}

/// Items that rules join, and the wanted gap, from 0 to 1,000,000 thousandths. Both lists are in the
/// caller's arena.
///
/// There are at most 850,000,000 items (`MOST_ITEMS`), each as described at `Item`, and any number
/// of rules, each as described at `Rule`. All calls require these conditions.
#[derive(Debug, PartialEq, Eq, Drop)]
pub struct Bundle<'a> {
    pub items: Vec<Item, &'a Bump>,
    pub rules: Vec<Rule, &'a Bump>,
    pub wanted: i64,
}

/// Positions of a bundle's items for a gap, with the multipliers of its rules and limits. All lists
/// are in the caller's arena.
///
/// The item at an index is at `pos / den` thousandths. `mult` has the multipliers of the rules, in
/// their order, and `low` and `high` those of the items' limits. A multiplier of a limit is a
/// numerator over the item's `den`, one of a rule over the `den` of both its items.
#[derive(Debug, PartialEq, Eq, Drop)]
pub struct Solution<'a> {
    pub gap: i64,
    pub den: Vec<u64, &'a Bump>,
    pub pos: Vec<i128, &'a Bump>,
    pub mult: Vec<i128, &'a Bump>,
    pub low: Vec<i128, &'a Bump>,
    pub high: Vec<i128, &'a Bump>,
}

impl Solution<'_> {
    ghost use Rattle.std.specs.Prelude.{◌<◌, length, slice_index};
    ghost use Rattle.plane_geom.specs.Point.{IsCoordinate};
    ghost use Rattle.separation_model.specs.Bundle.{SolutionIsOnSheet, int_at};
    ghost use Rattle.separation_model.specs.Rounded.{rounded_down};

    /// The position of the item.
    pub(crate) fn position(&self, item: usize) -> Position
        requires den { item < length self.now.den.items }
        requires pos { item < length self.now.pos.items }
        ensures pos { result.pos ≡ int_at self.now.pos.items item }
        ensures den { result.den ≡ slice_index self.now.den.items item }
    {
        Position {
            pos: self.pos[item],
            den: self.den[item],
        }
    }

    /// The item's position in whole thousandths, rounded down, also if it is negative.
    ///
    /// All positions have to be on the sheet. Positions that meet a bundle are
    /// (`met_positions_are_on_sheet`).
    pub fn rounded_down(&self, item: usize) -> i64
        requires item { item < length self.now.pos.items }
        requires on_sheet { SolutionIsOnSheet self.now }
        ensures value { result ≡
            rounded_down (int_at self.now.pos.items item) (slice_index self.now.den.items item) }
        ensures coordinate { IsCoordinate result }
    {
        let position = self.position(item);
        rounded_down(position.pos, position.den)
    }
}
