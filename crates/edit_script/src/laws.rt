//! The laws of scripts, each the contract of a function with an empty body.
ghost use Rattle.edit_script.specs.Script.{HaveDirections, NumbersRise};

/// Each pin that a command of a script adds has a direction, as each call that gets such an edit
/// requires.
pub fn scripts_have_directions()
    ensures { HaveDirections }
{}

/// Each line has at most one command, and commands are in the order of their lines, which are
/// counted from 1.
pub fn line_numbers_rise()
    ensures { NumbersRise }
{}
