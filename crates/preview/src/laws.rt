//! The laws of proposed transactions, each the contract of a function with an empty body.
ghost use Rattle.preview.specs.Commits.{CommitsArePreviewed, RefusalsArePreviewed};
ghost use Rattle.preview.specs.Previews.{HaveOnePreview, RefusalsHoldNoMemory};

/// A proposal has at most one answer. So the number of workers does not change an answer.
pub fn one_answer()
    ensures { HaveOnePreview }
{}

/// The fault of a refused proposal is never out of memory.
pub fn refusals_hold_no_memory()
    ensures { RefusalsHoldNoMemory }
{}

/// The answer to a proposal is the result of `begin`, its edits and `commit` on a session: the scene, the book and the
/// number of searches, or the refusal of the same edit.
pub fn previews_are_commits()
    ensures committed { CommitsArePreviewed }
    ensures refused { RefusalsArePreviewed }
{}
