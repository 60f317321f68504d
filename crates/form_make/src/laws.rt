//! The laws of what is generated from a seed.
ghost use Rattle.std.specs.Prelude.{◌≡◌, ◌/◌, ◌^◌};
ghost use Rattle.form_make.specs.Draws.{draw, state_after};
ghost use Rattle.form_make.specs.Makes.{SeedsComeToOne};

use script_replay::one_list_of_replies;

/// The first state and the first draw of seed 1, as known independently of the definitions.
pub fn first_draw_of_one()
    ensures state { state_after 1 1 ≡ 7806831264735756412 }
    ensures quotient { state_after 1 1 / 2 ^ 33 ≡ 908834774 }
    ensures draw { draw 1 0 61 ≡ 44 }
{}

/// A seed has exactly one output and one number of searches.
pub fn seeds_come_to_one()
    ensures { SeedsComeToOne }
{
    one_list_of_replies();
}
