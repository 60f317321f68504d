//! The law of what is written, as the contract of a function that does nothing.
ghost use Rattle.form_shared.specs.Shares.{HaveOneText};

use nudge_phases::one_nudged_scene;
use scene_model::one_list_of_answers;
use shared_paths::one_list_of_paths;

/// A valid scene has one text on its shared paths and crossings.
pub fn shares_come_to_one()
    ensures { HaveOneText }
{
    one_list_of_answers();
    one_nudged_scene();
    one_list_of_paths();
}
