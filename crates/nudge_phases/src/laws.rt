//! The laws of nudging a scene, each as a function with no body: a caller cites it by a call.
ghost use Rattle.nudge_phases.specs.Nudged.{HaveFewPoints, HaveOneNudged, NudgedScenesAreLegal, NudgedScenesKeepApart};

/// Right answers of a valid scene have at most one list of nudged lines.
pub fn one_nudged_scene()
    ensures { HaveOneNudged }
{}

/// The nudged lines of right answers are legal walks of their connectors, and keep every separation of both phases.
pub fn nudged_scenes_are_legal_and_apart()
    ensures legal { NudgedScenesAreLegal }
    ensures apart { NudgedScenesKeepApart }
{}

/// Right answers of a valid scene have at most 512 routes, of at most 3,289,603 points each, and a nudged line has at most
/// as many points as its route.
pub fn nudged_lines_are_short()
    ensures { HaveFewPoints }
{}
