//! The laws of a session's calls, each the contract of a function with an empty body.
ghost use Rattle.session_model.specs.Calls.{CommitsAreGivenBack, SessionsAreWorlds};

/// After any list of calls, including refused ones and those that ran out of memory, a session is
/// the world after their commands, and its book has the right answers of the present scene. A call
/// that ran out of memory counts as a refused command.
pub fn sessions_are_worlds()
    ensures { SessionsAreWorlds }
{}

/// An undo of a commit restores exactly the scene and the book before it; a redo of that undo
/// restores exactly the world and the book after the commit.
pub fn commits_are_given_back()
    ensures { CommitsAreGivenBack }
{}
