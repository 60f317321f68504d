//! Laws of first walks: they go along the kept lines of a floor, with few runs. Laws of moving a run
//! of any legal walk.
#![tactic(auto)]

mod laws;
mod shifts;
mod sizes;

pub use laws::{
    checkpoints_are_crossings, doublings_back_are_at_checkpoints, first_walks_go_along_lines,
    first_walks_have_few_runs, one_run_per_free_piece, runs_are_held_to_a_side,
};
pub use shifts::{detours_can_be_cut_short, runs_can_be_moved_back, runs_can_be_moved_on};
pub use sizes::{
    both_ways_are_all_runs, first_routes_are_small, first_walks_are_small,
    first_walks_have_few_runs_of_a_way, first_walks_stay_on_sheet,
};
