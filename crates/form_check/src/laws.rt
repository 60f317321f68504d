//! The law of what a check writes, as the contract of a function that does nothing.
ghost use Rattle.form_check.specs.Checks.{HaveOneCheck};

/// A document and a scene have one text on their lines, and one verdict.
pub fn checks_come_to_one()
    ensures { HaveOneCheck }
{}
