//! Laws of replies, as the contracts of functions that do nothing.
ghost use Rattle.live_replies.specs.Client.{ChangesKeepClients};
ghost use Rattle.live_replies.specs.Previews.{PreviewsAreCommits};
ghost use Rattle.live_replies.specs.Serves.{DiagramsStay};

use nudge_phases::one_nudged_scene;
use scene_model::one_list_of_answers;

/// A client that knows the lines before a reply, and applies the changes that the reply reports, knows the lines of the
/// session.
pub fn changes_keep_clients()
    ensures { ChangesKeepClients }
{}

/// A session that is served keeps the diagram that it was opened with, whatever ends it.
pub fn diagrams_stay()
    ensures { DiagramsStay }
{}

/// A commit that is done right after a preview reports what the preview reported, or that no memory was left to report
/// it.
pub fn previews_are_commits()
    ensures { PreviewsAreCommits }
{
    one_list_of_answers();
    one_nudged_scene();
}
