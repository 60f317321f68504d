//! The scenes before and after a step of the history.
ghost use Rattle.std.specs.Prelude.{◌≡◌, IfOk};
ghost use Rattle.scene_model.specs.Inverses.{redone, taken_back};
ghost use Rattle.route_session.specs.Upheld.{AreFree, AreRestorable};

use scene_store::{Edit, Edits, Inverse, Inverses, Scene, SceneFault};
use std::alloc::AllocError;

/// The scene before a step: its inverses, from last to first, applied to a copy of the scene after
/// it.
pub(crate) fn scene_before(scene: &Scene, back: &[Inverse]) -> Result<Scene, AllocError>
    requires { AreRestorable back.now scene.now }
    ensures { IfOk result (λ s. s ≡ taken_back back.now scene.now) }
{
    let mut before = scene.copy()?;
    for place in (0..back.len()).rev() {
        before.restore(&back[place])?;
    }
    Ok(before)
}

/// The scene after a step: its edits, applied to a copy of the scene before it.
pub(crate) fn scene_after(scene: &Scene, forth: &[Edit]) -> Result<Scene, AllocError>
    requires { AreFree forth.now scene.now }
    ensures { IfOk result (λ s. s ≡ redone forth.now scene.now) }
{
    let mut after = scene.copy()?;
    for edit in forth {
        after.edit(edit).map_err(no_room)?;
    }
    Ok(after)
}

/// An edit that is not refused fails only when out of memory.
fn no_room(_fault: SceneFault) -> AllocError {
    AllocError
}

/// The inverses as a slice.
pub(crate) fn inverses(back: &Inverses) -> &[Inverse]
    ensures { result.now ≡ back.now }
{
    &back.0
}

/// The edits as a slice.
pub(crate) fn edits(forth: &Edits) -> &[Edit]
    ensures { result.now ≡ forth.now }
{
    &forth.0
}
