//! The laws of replays, each the contract of a function with an empty body.
ghost use Rattle.script_replay.specs.Origins.{ReplaysKeepOrigins};
ghost use Rattle.script_replay.specs.Replies.{HaveOneListOfReplies};

/// The commands of a script have at most one list of replies.
pub fn one_list_of_replies()
    ensures { HaveOneListOfReplies }
{}

/// The present scene after a replay comes from the diagram whose scene the replay began with.
pub fn replays_keep_origins()
    ensures { ReplaysKeepOrigins }
{}
