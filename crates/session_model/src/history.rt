//! The laws of histories, each the contract of a function with an empty body.
//!
//! They hold for any type of value kept with a step, and two lists of answers that are read from
//! it.
ghost use Rattle.std.specs.Prelude.{List};
ghost use Rattle.walk_model.specs.declared.route.Answer.{Answer};
ghost use Rattle.session_model.specs.History.{CommitsExtendPast, RedosGoOn, ScenesAreValid, UndosGoBack};

/// A commit keeps a history: its scenes are those of the world after it, including the scene that
/// is dropped.
pub fn commits_extend_past<C: Drop>()
    ensures { (here there : C → List Answer) → CommitsExtendPast here there }
{}

/// An undo keeps a history, if the value kept with the step is exchanged: its scenes are those of
/// the world after it.
pub fn undos_go_back<C: Drop>()
    ensures { (here there : C → List Answer) → UndosGoBack here there }
{}

/// A redo keeps a history, if the value kept with the step is exchanged: its scenes are those of
/// the world after it.
pub fn redos_go_on<C: Drop>()
    ensures { (here there : C → List Answer) → RedosGoOn here there }
{}

/// All past and future scenes of a history are valid.
pub fn scenes_are_valid<C: Drop>()
    ensures { (here there : C → List Answer) → ScenesAreValid here there }
{}
