//! The laws of the output, each as the contract of a function that does nothing.
ghost use Rattle.form_route.specs.Routes.{ComesToOne};
ghost use Rattle.form_route.specs.Written.{WrittenLinesAreLegal, WrittenLinesKeepApart};

use nudge_phases::{nudged_scenes_are_legal_and_apart, one_nudged_scene};
use scene_model::{one_list_of_answers, scenes_stay_valid};
use script_replay::one_list_of_replies;

/// A script on a diagram has exactly one output, one verdict and one number of searches, for any
/// number of workers.
pub fn replays_come_to_one()
    ensures { ComesToOne }
{
    one_list_of_replies();
    one_list_of_answers();
    scenes_stay_valid();
    one_nudged_scene();
}

/// The lines that a script writes are legal walks of their connectors, and keep every separation of
/// both phases.
pub fn written_lines_are_legal_and_apart()
    ensures legal { WrittenLinesAreLegal }
    ensures apart { WrittenLinesKeepApart }
{
    scenes_stay_valid();
    nudged_scenes_are_legal_and_apart();
}
