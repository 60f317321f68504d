//! The law of what is written, as the contract of a function with an empty body.
ghost use Rattle.form_preview.specs.Proposes.{ComeToOne};

use preview::one_answer;
use scene_model::one_list_of_answers;

/// The proposals of a script have at most one output, and one verdict, for any number of workers.
pub fn proposals_come_to_one()
    ensures { ComeToOne }
{
    one_answer();
    one_list_of_answers();
}
