//! Separation constraints on one axis, and their laws: bundles, the widest gap, least positions,
//! and multipliers that show positions to be least.
//!
//! Positions are exact fractions of a thousandth of a GML unit. `separation_solve` finds the least
//! ones.
#![tactic(auto)]

mod bundle;
mod certificate;
mod displacement;
mod gap;
mod latest;
mod laws;
mod position;

pub use bundle::{Bundle, Item, MOST_ITEMS, Rule, Solution};
pub use certificate::verify;
pub use displacement::{numerator_over, weighted_displacement};
pub use gap::widest_gap;
pub use latest::{latest_positions, rules_by_left};
pub use laws::{
    certified_is_least, least_positions_exist, met_positions_are_on_sheet, middles_reduce,
    most_items_is_the_bound, one_least, one_rounded, one_widest_gap, padded_is_certified,
    padded_pushes, reduced_meets, reduced_places, rounded_down_is_below, rounded_down_meets,
};
