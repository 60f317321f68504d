//! Whether labels agree with the entries and the endings of walks.
ghost use Rattle.std.specs.Prelude.{◌≤◌, ◌↔◌, All, IsTrue, length};
ghost use Rattle.route_audit.specs.Ends.{AreSmall, IsEndingIn, IsEntryFound, IsEntryIn, MayEndAt, MayEndBy};
ghost use Rattle.route_audit.specs.Index.{AreLabels};

use crate::claim::{bends, may_end, suffices};
use crate::labels::Labels;
use move_model::Place;
use plane_geom::Dir;
use proof_model::Claim;
use search_problem::{DIRS, Ending, Entry, Problem};

/// Whether the value of each entry's place is at most the entry's cost.
pub(crate) fn are_entries_found(
    problem: &Problem<'_>,
    claim: &Claim,
    labels: &Labels<'_>,
    entries: &[Entry],
) -> bool
    requires labels { AreLabels problem.now.arena.now (length problem.now.task.now.via) labels.now }
    requires entries { All (IsEntryIn problem.now.arena.now (length problem.now.task.now.via)) entries.now }
    ensures { IsTrue result ↔ All (IsEntryFound claim.now labels.now.rows.now) entries.now }
{
    for entry in entries {
        let label = labels.label(problem.arena, &entry.place, entry.port);
        if !suffices(claim, label, entry.lead) {
            return false;
        }
    }
    true
}

/// Whether a walk may end by the ending that comes there in the heading, if there is a label of it.
fn may_end_in(
    problem: &Problem<'_>,
    claim: &Claim,
    labels: &Labels<'_>,
    ending: &Ending,
    heading: Dir,
) -> bool
    requires few { length problem.now.task.now.via ≤ 4 }
    requires labels { AreLabels problem.now.arena.now (length problem.now.task.now.via) labels.now }
    requires small { AreSmall labels.now.rows.now }
    requires penalty { problem.now.task.now.penalty ≤ 1000000000 }
    requires ending { IsEndingIn problem.now.arena.now ending.now }
    ensures { IsTrue result ↔
        MayEndBy problem.now.task.now claim.now labels.now.rows.now ending.now heading }
{
    let place = Place {
        crossing: ending.crossing,
        stage: problem.task.via.as_slice().len() as u32,
        heading,
    };
    match labels.label(problem.arena, &place, ending.port) {
        None => true,
        Some(label) => {
            let turned = problem.task.penalty * bends(heading, ending.dir);
            may_end(claim, label + (turned + ending.rest))
        }
    }
}

/// Whether a walk may end by the ending that comes there in any heading with a label.
fn may_end_at(problem: &Problem<'_>, claim: &Claim, labels: &Labels<'_>, ending: &Ending) -> bool
    requires few { length problem.now.task.now.via ≤ 4 }
    requires labels { AreLabels problem.now.arena.now (length problem.now.task.now.via) labels.now }
    requires small { AreSmall labels.now.rows.now }
    requires penalty { problem.now.task.now.penalty ≤ 1000000000 }
    requires ending { IsEndingIn problem.now.arena.now ending.now }
    ensures { IsTrue result ↔ MayEndAt problem.now.task.now claim.now labels.now.rows.now ending.now }
{
    for heading in DIRS {
        if !may_end_in(problem, claim, labels, ending, heading) {
            return false;
        }
    }
    true
}

/// Whether walks may end by the endings that come there with labels.
pub(crate) fn may_all_end(
    problem: &Problem<'_>,
    claim: &Claim,
    labels: &Labels<'_>,
    endings: &[Ending],
) -> bool
    requires few { length problem.now.task.now.via ≤ 4 }
    requires penalty { problem.now.task.now.penalty ≤ 1000000000 }
    requires endings { All (IsEndingIn problem.now.arena.now) endings.now }
    requires labels { AreLabels problem.now.arena.now (length problem.now.task.now.via) labels.now }
    requires small { AreSmall labels.now.rows.now }
    ensures { IsTrue result ↔
        All (MayEndAt problem.now.task.now claim.now labels.now.rows.now) endings.now }
{
    for ending in endings {
        if !may_end_at(problem, claim, labels, ending) {
            return false;
        }
    }
    true
}
