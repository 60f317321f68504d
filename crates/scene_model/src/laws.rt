//! The laws of scenes, each the contract of a function with an empty body.
ghost use Rattle.scene_model.specs.Answers.{HaveOneList};
ghost use Rattle.scene_model.specs.Floors.{FloorsFit, FloorsHoldTasks};
ghost use Rattle.scene_model.specs.Inverses.{KeepsValid, LeadsBack, TakesBack};
ghost use Rattle.scene_model.specs.Loads.{LoadsKeepValid};
ghost use Rattle.scene_model.specs.Stale.{HaveOneStaleList};
ghost use Rattle.scene_model.specs.World.{ScenesStayValid};

/// An edit that is not refused keeps a scene valid, if a pin that it adds has a direction.
pub fn edits_keep_valid()
    ensures { KeepsValid }
{}

/// The inverse of an edit that was not refused fits the scene after the edit, and restores the
/// scene before it.
pub fn edits_take_back()
    ensures { TakesBack }
{}

/// A sequence of edits leads from a valid scene to a valid one, and their inverses, from last to
/// first, lead back.
pub fn chains_lead_back()
    ensures { LeadsBack }
{}

/// Loading a node or an edge that is not refused keeps a scene valid.
pub fn loads_keep_valid()
    ensures { LoadsKeepValid }
{}

/// The scenes of a world stay valid after any commands.
pub fn scenes_stay_valid()
    ensures { ScenesStayValid }
{}

/// A graph can be built of the floor of a valid scene.
pub fn floors_fit()
    ensures { FloorsFit }
{}

/// The floor of a valid scene is a floor of each connector's task, which a search accepts.
pub fn floors_hold_tasks()
    ensures { FloorsHoldTasks }
{}

/// A scene has at most one list of right answers.
pub fn one_list_of_answers()
    ensures { HaveOneList }
{}

/// A commit has at most one list of stale connectors.
pub fn one_stale_list()
    ensures { HaveOneStaleList }
{}
