//! The least positions of a bundle of separation constraints, with multipliers that show them to be
//! least.
//!
//! Bundles, solutions, the widest gap, the check of a solution and the laws are those of
//! `separation_model`, which are re-exported. Positions are exact fractions of a thousandth of a
//! GML unit.
#![tactic(auto)]

mod balance;
mod fraction;
mod mirror;
mod network;
mod push;
mod reach;
mod release;
mod rest;
mod shift;
mod solver;
mod start;
mod sweep;
mod tight;

pub use separation_model::{
    Bundle, Item, MOST_ITEMS, Rule, Solution, certified_is_least, least_positions_exist,
    met_positions_are_on_sheet, most_items_is_the_bound, one_least, one_rounded, one_widest_gap,
    rounded_down_is_below, rounded_down_meets, verify, widest_gap,
};
pub use solver::solve;
