//! The laws, each the contract of a function with an empty body.
ghost use Rattle.existence_laws.specs.Answers.{HaveAnswers, HaveStaleLists, HaveVerdicts, TasksHaveAnswers};
ghost use Rattle.existence_laws.specs.Audits.{HaveLeastProofs, ScenesAreAudited};
ghost use Rattle.existence_laws.specs.Nudged.{HaveNudgedLines};
ghost use Rattle.existence_laws.specs.Paths.{HaveSharedPaths};
ghost use Rattle.existence_laws.specs.Previews.{HavePreviews};
ghost use Rattle.existence_laws.specs.Readings.{HaveProofReadings, HaveReadings};
ghost use Rattle.existence_laws.specs.Solutions.{HaveSolutions};

use scene_model::edits_keep_valid;

/// Each task on a floor within the limits has an answer: the route of a first walk, or that no walk
/// is legal.
pub fn some_answer()
    ensures { TasksHaveAnswers }
{}

/// Each valid scene has right answers.
pub fn some_answers()
    ensures { HaveAnswers }
{}

/// For right answers of one scene, another one has a list of stale connectors.
pub fn some_stale_list()
    ensures { HaveStaleLists }
{}

/// Edits of a valid scene have an answer as a proposal: what a commit of them gives, or their first
/// refusal.
pub fn some_preview()
    ensures { HavePreviews }
{
    edits_keep_valid();
}

/// Each line has a verdict: it is legal and has a cost, or it breaks a rule first.
pub fn some_verdict()
    ensures { HaveVerdicts }
{}

/// All bytes are read as a tree, or have a fault as a document.
pub fn some_reading()
    ensures { HaveReadings }
{}

/// All bytes are the text of proofs, or have a first bad line.
pub fn some_proof_reading()
    ensures { HaveProofReadings }
{}

/// All proofs prove a scene, or a rule fails first.
pub fn some_audit()
    ensures { ScenesAreAudited }
{}

/// Each connector of a valid scene has a least proof.
pub fn some_least_proofs()
    ensures { HaveLeastProofs }
{}

/// Each bundle that calls accept has a solution: least positions for its widest gap, with
/// multipliers that show it.
pub fn some_solution()
    ensures { HaveSolutions }
{}

/// Routes that `shared_paths` accepts have a list of shared paths.
pub fn some_shared_paths()
    ensures { HaveSharedPaths }
{}

/// Right answers of a valid scene have nudged lines.
pub fn some_nudged_lines()
    ensures { HaveNudgedLines }
{}
