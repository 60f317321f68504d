//! Places and moves on the lines of a floor, and the laws that relate the ways along them to first
//! walks.
//!
//! Lengths and costs are in thousandths of a GML unit.
#![tactic(auto)]

mod ahead;
mod laws;
mod place;
mod stations;

pub use ahead::{Ahead, Stretch};
pub use laws::{
    bends_are_a_metric, bounds_grow_slowly, common_steps_compare_alike, corners_draw_walks,
    crossings_are_on_sheet, first_walks_are_ways, legs_in_front, moves_lead_back,
    nearest_crossings_make_moves, one_stage, rests_are_first, rests_go_on, rivals_are_no_earlier,
    stretches_in_front, stubs_in_front, ways_are_legal, ways_go_on,
};
pub use place::Place;
pub use stations::{
    first_walks_stop_at_stations, legs_go_straight, rests_have_numbers, rests_have_stations,
    runs_into_bends_are_held, runs_lie_on_lines, straight_legs_are_held, straight_legs_in_front,
    ways_double_back_at_checkpoints, ways_have_stations,
};
