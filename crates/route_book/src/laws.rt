//! The law of reuse, as the contract of a function with an empty body.
ghost use Rattle.route_book.specs.Kept.{CurrentAnswersStay};

/// The answer of a connector that is not stale is also right in the new scene.
pub fn current_answers_stay()
    ensures { CurrentAnswersStay }
{}
