//! The laws of scenes that come from a diagram, each the contract of a function with an empty body.
ghost use Rattle.gml_scene.specs.Origins.{EditsKeepOrigins, OwnScenesFit};

/// The scene that is read from a document meets the conditions of `put_routes` on its nodes and
/// edges.
pub fn own_scenes_fit()
    ensures { OwnScenesFit }
{}

/// Each edit keeps these conditions. So each scene that edits make from a document's own scene
/// meets them, and so does each scene reached by undo and redo.
pub fn edits_keep_origins()
    ensures { EditsKeepOrigins }
{}
